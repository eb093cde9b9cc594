//! What there can be too many of.
ghost use Rattle.std.specs.Prelude.{◌≡◌};

/// What there can be too many of.
#[derive(Clone, Copy, Debug, PartialEq, Eq, Drop)]
pub enum Counted {
    /// Variables, without arrays of them.
    Variables,
    Constraints,
    /// Entries of one array.
    ArrayEntries,
    /// Entries of all arrays that constraints take.
    ArgumentEntries,
    /// Variables that nothing defines.
    Free,
}

impl Counted {
    ghost use Rattle.dom_limits.specs.Counted.{limit_of};

    /// How many there may be.
    pub const fn limit(self) -> u64
        ensures { result ≡ limit_of self }
    {
        match self {
            Counted::Variables | Counted::Constraints | Counted::ArrayEntries => 100_000,
            Counted::ArgumentEntries => 2_000_000,
            Counted::Free => 4096,
        }
    }
}
