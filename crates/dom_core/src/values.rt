//! A list of integers that contracts see as their list.
ghost use Rattle.std.specs.Prelude.{◌≡◌, length, IfOk};
ghost use Rattle.std.proofs.Common.{rules};
ghost use Rattle.std.specs.Cmp.Rules.{comparing};
ghost use Rattle.std.specs.Cmp.Lexicographic.{pointwise};
ghost use Rattle.std.specs.Ordering.{int_eq};

use std::alloc::{AllocError, Global};
use std::marker::Model;

/// A list of integers.
#[derive(Debug, Drop)]
pub struct Values {
    items: Vec<i64>,
}

impl Model for Values {
    ghost use Rattle.std.specs.Prelude.{List, ℤ};

    ghost Value = { List ℤ };

    ghost view = { λ v. v.items.items };
}

impl Values {
    pub fn from_slice(alloc: Global, values: &[i64]) -> Result<Values, AllocError>
        ensures { IfOk result (λ v. v ≡ values.now) }
    {
        Ok(Values {
            items: values.to_vec(alloc)?,
        })
    }

    /// The values of a vector, which is moved.
    pub fn from_vec(items: Vec<i64>) -> Values
        ensures { result ≡ items.items }
    {
        Values { items }
    }

    pub fn as_slice(&self) -> &[i64]
        ensures { result.now ≡ self.now }
    {
        self.items.as_slice()
    }

    pub fn len(&self) -> usize
        ensures { result ≡ length self.now }
    {
        self.items.len()
    }
}

impl PartialEq for Values {
    ghost eq = { pointwise int_eq };

    ghost laws = { Prim.search (comparing, rules) };

    fn eq(&self, other: &Values) -> bool {
        self.items == other.items
    }
}
