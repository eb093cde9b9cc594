//! What a visit of a kind finds.

/// The kind gives up the cells, or it wrote ends that it implies. Without `more` nothing follows once these are applied.
#[derive(Clone, Copy, Debug, PartialEq, Eq, Drop)]
pub enum Visited {
    Refuted,
    Ends { more: bool },
}
