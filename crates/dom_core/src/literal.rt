//! Literals: comparisons of a variable with a number.
ghost use Rattle.std.specs.Prelude.{◌≡◌, ◌≤ℤ◌, pos, neg_ℤ, ◌+◌, ◌^◌};

use crate::VarId;

/// How a variable stands to a number.
#[derive(Clone, Copy, Debug, PartialEq, Eq)]
pub enum Rel {
    Le,
    Ge,
    Eq,
    Ne,
}

/// A comparison of a variable with a number.
#[derive(Clone, Copy, Debug, PartialEq, Eq)]
pub struct Literal {
    pub var: VarId,
    pub rel: Rel,
    pub value: i64,
}

impl Literal {
    ghost use Rattle.dom_core.specs.Literal.{holds_at, negation};

    /// Whether the literal holds of this value of its variable.
    pub fn at(self, value: i64) -> bool
        ensures { result ≡ holds_at self value }
    {
        match self.rel {
            Rel::Le => value <= self.value,
            Rel::Ge => self.value <= value,
            Rel::Eq => value == self.value,
            Rel::Ne => value != self.value,
        }
    }

    /// The literal that holds of exactly the other values.
    pub fn negated(self) -> Literal
        requires low { neg_ℤ (pos (2 ^ 62 + 1)) ≤ℤ self.value }
        requires high { self.value ≤ℤ pos (2 ^ 62 + 1) }
        ensures { result ≡ negation self }
    {
        let (rel, value) = match self.rel {
            Rel::Le => (Rel::Ge, self.value + 1),
            Rel::Ge => (Rel::Le, self.value - 1),
            Rel::Eq => (Rel::Ne, self.value),
            Rel::Ne => (Rel::Eq, self.value),
        };
        Literal {
            var: self.var,
            rel,
            value,
        }
    }
}
