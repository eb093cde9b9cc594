//! Hulls of variables.
ghost use Rattle.std.specs.Prelude.{◌≡◌, ◌<◌, length, replicate, slice_set, IfOk, None, Some, true};
ghost use Rattle.dom_definers.specs.Hulls.{AreSmallHulls, IsSmallHull, all_known, everything, hull_at, small_or_none, spans};
ghost use Rattle.kind_law.specs.Laws.{AllBelow, AreSmall};

use dom_core::{Interval, Intervals, VarId};
use std::alloc::{AllocError, Global};
use std::marker::Model;

/// For each variable its hull, the least interval that holds all its values, where one within plus and minus 2 ^ 62 is known.
#[derive(Drop)]
pub struct Hulls {
    items: Vec<Option<Interval>>,
}

impl Model for Hulls {
    ghost use Rattle.std.specs.Prelude.{List, Option};
    ghost use Rattle.dom_core.specs.Ends.{Ends};
    ghost use Rattle.dom_definers.specs.Hulls.{AreSmallHulls};

    ghost Value = { List (Option Ends) };

    ghost view = { λ h. h.items.items };

    ghost invariant = { λ h. AreSmallHulls h.items.items };
}

impl Hulls {
    /// No hull is known of so many variables.
    pub(crate) fn none(alloc: Global, count: usize) -> Result<Hulls, AllocError>
        ensures none { IfOk result (λ h. h ≡ replicate count None) }
        ensures small { IfOk result (λ h. AreSmallHulls h) }
    {
        Ok(Hulls {
            items: vec![in alloc; None; count]?,
        })
    }

    /// How many variables there are.
    pub fn len(&self) -> usize
        ensures count { result ≡ length self.now }
        ensures small { AreSmallHulls self.now }
    {
        self.items.len()
    }

    /// The variable's hull, where it has one.
    pub fn hull(&self, var: VarId) -> Option<Interval>
        requires { var.0 < length self.now }
        ensures hull { result ≡ hull_at self.now var.0 }
        ensures small { IsSmallHull result }
    {
        self.items[var.0 as usize]
    }

    pub(crate) fn set(&mut self, var: VarId, hull: Option<Interval>)
        requires below { var.0 < length self.old }
        requires small { IsSmallHull hull }
        ensures set { self.new ≡ slice_set self.old var.0 hull }
        ensures small { AreSmallHulls self.new }
    {
        self.items[var.0 as usize] = hull;
    }

    /// Whether each of the variables has a hull.
    pub(crate) fn all_known(&self, vars: &[VarId]) -> bool
        requires { AllBelow (length self.now) vars.now }
        ensures known { result ≡ all_known self.now vars.now }
        ensures small { result ≡ true → AreSmall vars.now (spans self.now) }
    {
        let _ = &self.items;
        for var in vars {
            if self.hull(*var).is_none() {
                return false;
            }
        }
        true
    }
}

impl Intervals for Hulls {
    ghost use Rattle.std.specs.Prelude.{length};
    ghost use Rattle.dom_definers.specs.Hulls.{spans};

    ghost width = { λ h. length h };

    ghost ready = { λ h v. Unit {0} };

    ghost spans = { spans };

    fn interval(&self, var: VarId) -> Interval {
        match self.hull(var) {
            Some(hull) => hull,
            None => everything(),
        }
    }
}

/// More integers than any table has indices.
fn everything() -> Interval
    ensures { result ≡ everything }
{
    Interval::new(-(1 << 100), 1 << 100)
}

/// The interval, where it lies within plus and minus 2 ^ 62.
pub(crate) fn small_or_none(range: Interval) -> Option<Interval>
    ensures value { result ≡ small_or_none range }
    ensures small { IsSmallHull result }
{
    if range.lo() < -(1 << 62) {
        return None;
    }
    if 1 << 62 < range.hi() {
        return None;
    }
    Some(range)
}
