//! Views: what two assignments may have, and how far they may differ.
ghost use Rattle.std.specs.Prelude.{◌≡◌, ◌<◌, length, IfOk, replicate, slice_set};
ghost use Rattle.dom_core.specs.View.{still, movement_at};

use crate::{Interval, Intervals, VarId};
use std::alloc::{AllocError, Global};
use std::marker::Model;

/// A variable's values before and after, and the changes from one to the other.
#[derive(Clone, Copy, Debug, PartialEq, Eq)]
pub struct Movement {
    pub before: Interval,
    pub after: Interval,
    pub change: Interval,
}

/// A movement for each variable.
#[derive(Debug, Drop)]
pub struct View {
    items: Vec<Movement>,
}

impl Model for View {
    ghost use Rattle.std.specs.Prelude.{List};
    ghost use Rattle.dom_core.specs.declared.view.Movement.{Movement};

    ghost Value = { List Movement };

    ghost view = { λ v. v.items.items };
}

impl View {
    /// So many variables, each of which stays at 0.
    pub fn for_vars(alloc: Global, count: usize) -> Result<View, AllocError>
        ensures { IfOk result (λ v. v ≡ replicate count still) }
    {
        let zero = Interval::new(0, 0);
        let still = Movement {
            before: zero,
            after: zero,
            change: zero,
        };
        Ok(View {
            items: vec![in alloc; still; count]?,
        })
    }

    pub fn len(&self) -> usize
        ensures { result ≡ length self.now }
    {
        self.items.len()
    }

    pub fn before(&self, var: VarId) -> Interval
        requires { var.0 < length self.now }
        ensures { result ≡ (movement_at self.now var.0).before }
    {
        self.items[var.0 as usize].before
    }

    pub fn after(&self, var: VarId) -> Interval
        requires { var.0 < length self.now }
        ensures { result ≡ (movement_at self.now var.0).after }
    {
        self.items[var.0 as usize].after
    }

    pub fn change(&self, var: VarId) -> Interval
        requires { var.0 < length self.now }
        ensures { result ≡ (movement_at self.now var.0).change }
    {
        self.items[var.0 as usize].change
    }

    pub fn set(&mut self, var: VarId, before: Interval, after: Interval, change: Interval)
        requires { var.0 < length self.old }
        ensures { self.new ≡ slice_set self.old var.0 (record { before = before; after = after; change = change }) }
    {
        self.items[var.0 as usize] = Movement {
            before,
            after,
            change,
        };
    }
}

/// The intervals before of a view.
#[derive(Drop)]
pub struct Before<'a>(pub &'a View);

impl Intervals for Before<'_> {
    ghost width = { λ b. length b.0.now };

    ghost ready = { λ b v. Unit {0} };

    ghost spans = { λ b v. (movement_at b.0.now v).before };

    fn interval(&self, var: VarId) -> Interval {
        self.0.before(var)
    }
}

/// The intervals after of a view.
#[derive(Drop)]
pub struct After<'a>(pub &'a View);

impl Intervals for After<'_> {
    ghost width = { λ a. length a.0.now };

    ghost ready = { λ a v. Unit {0} };

    ghost spans = { λ a v. (movement_at a.0.now v).after };

    fn interval(&self, var: VarId) -> Interval {
        self.0.after(var)
    }
}

/// The intervals of change of a view.
#[derive(Drop)]
pub struct Changes<'a>(pub &'a View);

impl Intervals for Changes<'_> {
    ghost width = { λ c. length c.0.now };

    ghost ready = { λ c v. Unit {0} };

    ghost spans = { λ c v. (movement_at c.0.now v).change };

    fn interval(&self, var: VarId) -> Interval {
        self.0.change(var)
    }
}
