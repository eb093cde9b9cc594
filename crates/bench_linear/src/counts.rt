//! What the rounds came to.

/// How much there was of each, as far as 64 bits hold it, and whether the box was the first one at the end.
#[derive(Default, Drop)]
pub(crate) struct Counts {
    pub(crate) rounds: u64,
    pub(crate) narrowings: u64,
    pub(crate) refuted: u64,
    pub(crate) ends: u64,
    pub(crate) literals: u64,
    pub(crate) is_whole: bool,
}
