//! What holds of every language: calls that do nothing, whose clauses are laws.
ghost use Rattle.std.specs.Prelude.{◌≡◌, ℕ, List};
ghost use Rattle.reading.specs.Places.{FailsAt};

/// A thing that lists of symbols spell.
pub trait Spelled {
    type Symbol;

    /// The symbols spell the thing.
    ghost spells: { Self → List Self.Symbol → Type 0 };
}

/// A list fails at one place at most.
pub fn fails_once<T: Spelled>()
    ensures { (symbols : List T.Symbol) (one other : ℕ) → FailsAt T.spells symbols one → FailsAt T.spells symbols other → one ≡ other }
{}

/// A list that fails spells nothing.
pub fn spells_or_fails<T: Spelled>()
    ensures { (symbols : List T.Symbol) (x : T) (left : ℕ) → T.spells x symbols → FailsAt T.spells symbols left → ⊥ }
{}
