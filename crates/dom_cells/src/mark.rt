//! A place to go back to.

/// How many changes cells had at some time.
#[derive(Clone, Copy, Debug, PartialEq, Eq)]
pub struct Mark {
    pub changes: u64,
}
