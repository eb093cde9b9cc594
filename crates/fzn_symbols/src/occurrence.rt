//! A name where it stands in a text.

/// What a name does where it stands.
#[derive(Clone, Copy, Debug, PartialEq, Eq, Drop)]
pub(crate) enum Role {
    Declares,
    Uses,
}

/// A name where it stands in a text.
#[derive(Clone, Copy, Debug, Drop)]
pub(crate) struct Occurrence<'a> {
    pub(crate) name: &'a [u8],
    /// Its first byte in the text.
    pub(crate) at: u64,
    pub(crate) role: Role,
}
