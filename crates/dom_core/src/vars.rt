//! A list of variables that contracts see as their list.
ghost use Rattle.std.specs.Prelude.{◌≡◌, length, IfOk, nat_eq};
ghost use Rattle.std.proofs.Common.{rules};
ghost use Rattle.std.specs.Cmp.Rules.{comparing};
ghost use Rattle.std.specs.Cmp.Lexicographic.{pointwise};
ghost use Rattle.std.specs.Ordering.{on};

use crate::VarId;
use std::alloc::{AllocError, Global};
use std::marker::Model;

/// A list of variables.
#[derive(Debug, Drop)]
pub struct Vars {
    items: Vec<VarId>,
}

impl Model for Vars {
    ghost use Rattle.std.specs.Prelude.{List};
    ghost use Rattle.dom_core.specs.declared.var_id.VarId.{VarId};

    ghost Value = { List VarId };

    ghost view = { λ v. v.items.items };
}

impl Vars {
    pub fn from_slice(alloc: Global, vars: &[VarId]) -> Result<Vars, AllocError>
        ensures { IfOk result (λ v. v ≡ vars.now) }
    {
        Ok(Vars {
            items: vars.to_vec(alloc)?,
        })
    }

    /// The variables of a vector, which is moved.
    pub fn from_vec(items: Vec<VarId>) -> Vars
        ensures { result ≡ items.items }
    {
        Vars { items }
    }

    pub fn as_slice(&self) -> &[VarId]
        ensures { result.now ≡ self.now }
    {
        self.items.as_slice()
    }

    pub fn len(&self) -> usize
        ensures { result ≡ length self.now }
    {
        self.items.len()
    }
}

impl PartialEq for Vars {
    ghost eq = { pointwise (on (λ v. v.0) nat_eq) };

    ghost laws = { Prim.search (comparing, rules) };

    fn eq(&self, other: &Vars) -> bool {
        self.items == other.items
    }
}
