use crate::words::What;

/// A token, at the bytes from `start` up to `end` of its text.
#[derive(Clone, Copy, Debug, PartialEq, Eq, Drop)]
pub struct Token {
    pub start: u64,
    pub end: u64,
    pub what: What,
}
