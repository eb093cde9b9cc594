//! Assignments: one value for each variable.
ghost use Rattle.std.specs.Prelude.{◌≡◌, ◌<◌, length, IfOk, pos, replicate, slice_set};
ghost use Rattle.dom_core.specs.Assignment.{value_at};
ghost use Rattle.std.proofs.Common.{rules};
ghost use Rattle.std.specs.Cmp.Rules.{comparing};
ghost use Rattle.std.specs.Cmp.Lexicographic.{pointwise};
ghost use Rattle.std.specs.Ordering.{int_eq};

use crate::{Values, VarId};
use std::alloc::{AllocError, Global};
use std::marker::Model;

/// A value for each variable of a model.
#[derive(Debug, Drop)]
pub struct Assignment {
    values: Vec<i64>,
}

impl Model for Assignment {
    ghost use Rattle.std.specs.Prelude.{List, ℤ};

    ghost Value = { List ℤ };

    ghost view = { λ a. a.values.items };
}

impl Assignment {
    /// So many variables, each at 0.
    pub fn zeros(alloc: Global, count: usize) -> Result<Assignment, AllocError>
        ensures { IfOk result (λ a. a ≡ replicate count (pos 0)) }
    {
        Ok(Assignment {
            values: vec![in alloc; 0; count]?,
        })
    }

    pub fn len(&self) -> usize
        ensures { result ≡ length self.now }
    {
        self.values.len()
    }

    pub fn value(&self, var: VarId) -> i64
        requires { var.0 < length self.now }
        ensures { result ≡ value_at self.now var }
    {
        self.values[var.0 as usize]
    }

    pub fn set(&mut self, var: VarId, value: i64)
        requires { var.0 < length self.old }
        ensures { self.new ≡ slice_set self.old var.0 value }
    {
        self.values[var.0 as usize] = value;
    }

    pub fn as_slice(&self) -> &[i64]
        ensures { result.now ≡ self.now }
    {
        self.values.as_slice()
    }

    /// Takes over the values of another assignment to as many variables.
    pub fn copy_from(&mut self, other: &Assignment)
        requires { length self.old ≡ length other.now }
        ensures { self.new ≡ other.now }
    {
        self.values.copy_from_slice(other.values.as_slice());
    }

    /// The values as a list of their own.
    pub fn to_values(&self, alloc: Global) -> Result<Values, AllocError>
        ensures { IfOk result (λ v. v ≡ self.now) }
    {
        Values::from_slice(alloc, self.values.as_slice())
    }
}

impl PartialEq for Assignment {
    ghost eq = { pointwise int_eq };

    ghost laws = { Prim.search (comparing, rules) };

    fn eq(&self, other: &Assignment) -> bool {
        self.values == other.values
    }
}
