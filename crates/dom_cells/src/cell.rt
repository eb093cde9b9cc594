//! One variable's cell, and what a literal makes of it.
ghost use Rattle.std.specs.Prelude.{◌≡◌, ◌≤◌, ◌<◌, length, ◌≤ℤ◌, ◌<ℤ◌, true, IfOk, pos, ◌^◌, ◌-◌};
ghost use Rattle.dom_cells.specs.Cell.{IsSane, IsInOrder, Suits};
ghost use Rattle.dom_cells.specs.Flagged.{is_kept, holds_in, IsSound, IsWhole, IsFloor, IsCeiling, IsStep, IsPlace, IsShown, AllHold, NoneHolds, SomeHolds, SomeFails};
ghost use Rattle.std.specs.Bool.{MatchBool};

use crate::flags::Flags;
use crate::{Start, Truth};
use dom_core::{Domain, Literal, Rel};
use std::alloc::{AllocError, Global};

/// A variable's start, the ends of what is left of it, and a flag for each value of a domain that is left.
/// Flags of values beyond the ends stand as they stood when the ends passed them.
#[derive(Drop)]
pub(crate) struct Cell {
    pub(crate) start: Start,
    pub(crate) lo: i64,
    pub(crate) hi: i64,
    pub(crate) flags: Flags,
}

/// What a literal makes of a cell: nothing, an empty one, or one with these ends and this flag down. Without such
/// a flag `hole` is the number of flags.
#[derive(Clone, Copy)]
pub(crate) enum Step {
    Same,
    Emptied,
    Change { lo: i64, hi: i64, hole: usize },
}

impl Cell {
    /// The cell that has all values of its start.
    pub(crate) fn whole(alloc: Global, start: Start) -> Result<Cell, AllocError>
        requires { IsInOrder start }
        ensures whole { IfOk result (IsWhole start) }
        ensures sane { IfOk result (λ _. IsSane start) }
    {
        let lo = start.lo();
        let hi = start.hi();
        let flags = Flags::all_up(alloc, start.flag_count())?;
        Ok(Cell {
            start,
            lo,
            hi,
            flags,
        })
    }

    pub(crate) fn has(&self, value: i64) -> bool
        requires { IsSound self.now }
        ensures { result ≡ holds_in self.now value }
    {
        if value < self.lo || self.hi < value {
            return false;
        }
        match &self.start {
            Start::Values(domain) => is_up(domain, &self.flags, value),
            Start::Span { .. } => true,
        }
    }

    /// Whether the literal holds of every value.
    pub(crate) fn is_held(&self, literal: Literal) -> bool
        requires { IsSound self.now }
        ensures { MatchBool result (AllHold self.now literal) (SomeFails self.now literal) }
    {
        match literal.rel {
            Rel::Le => self.hi <= literal.value,
            Rel::Ge => literal.value <= self.lo,
            Rel::Eq => self.lo == literal.value && self.hi == literal.value,
            Rel::Ne => !self.has(literal.value),
        }
    }

    /// Whether the literal holds of no value.
    pub(crate) fn is_failed(&self, literal: Literal) -> bool
        requires { IsSound self.now }
        ensures { MatchBool result (NoneHolds self.now literal) (SomeHolds self.now literal) }
    {
        match literal.rel {
            Rel::Le => literal.value < self.lo,
            Rel::Ge => self.hi < literal.value,
            Rel::Eq => !self.has(literal.value),
            Rel::Ne => self.lo == literal.value && self.hi == literal.value,
        }
    }

    /// Whether the literal holds of all, of none or of some of the values.
    pub(crate) fn truth(&self, literal: Literal) -> Truth
        requires { IsSound self.now }
        ensures { IsShown self.now literal result }
    {
        if self.is_held(literal) {
            return Truth::True;
        }
        if self.is_failed(literal) {
            return Truth::False;
        }
        Truth::Open
    }

    /// What the literal makes of the cell.
    pub(crate) fn step(&self, literal: Literal) -> Step
        requires sound { IsSound self.now }
        requires suits { Suits self.now.start literal.rel }
        ensures { IsStep self.now literal result }
    {
        match literal.rel {
            Rel::Le => self.step_down(literal),
            Rel::Ge => self.step_up(literal),
            Rel::Eq => self.step_to(literal),
            Rel::Ne => self.step_without(literal),
        }
    }

    fn step_down(&self, literal: Literal) -> Step
        requires sound { IsSound self.now }
        requires rel { literal.rel ≡ Rel.Le }
        ensures { IsStep self.now literal result }
    {
        if self.hi <= literal.value {
            return Step::Same;
        }
        if literal.value < self.lo {
            return Step::Emptied;
        }
        Step::Change {
            lo: self.lo,
            hi: self.floor(literal.value),
            hole: self.flags.len(),
        }
    }

    fn step_up(&self, literal: Literal) -> Step
        requires sound { IsSound self.now }
        requires rel { literal.rel ≡ Rel.Ge }
        ensures { IsStep self.now literal result }
    {
        if literal.value <= self.lo {
            return Step::Same;
        }
        if self.hi < literal.value {
            return Step::Emptied;
        }
        Step::Change {
            lo: self.ceiling(literal.value),
            hi: self.hi,
            hole: self.flags.len(),
        }
    }

    fn step_to(&self, literal: Literal) -> Step
        requires sound { IsSound self.now }
        requires rel { literal.rel ≡ Rel.Eq }
        ensures { IsStep self.now literal result }
    {
        if !self.has(literal.value) {
            return Step::Emptied;
        }
        if self.lo == self.hi {
            return Step::Same;
        }
        Step::Change {
            lo: literal.value,
            hi: literal.value,
            hole: self.flags.len(),
        }
    }

    fn step_without(&self, literal: Literal) -> Step
        requires sound { IsSound self.now }
        requires rel { literal.rel ≡ Rel.Ne }
        requires suits { Suits self.now.start literal.rel }
        ensures { IsStep self.now literal result }
    {
        let value = literal.value;
        if !self.has(value) {
            return Step::Same;
        }
        if self.lo == self.hi {
            return Step::Emptied;
        }
        if value == self.lo {
            let lo = self.ceiling(value + 1);
            return Step::Change {
                lo,
                hi: self.hi,
                hole: self.flags.len(),
            };
        }
        if value == self.hi {
            let hi = self.floor(value - 1);
            return Step::Change {
                lo: self.lo,
                hi,
                hole: self.flags.len(),
            };
        }
        Step::Change {
            lo: self.lo,
            hi: self.hi,
            hole: self.place(value),
        }
    }

    /// The greatest value that is at most this one.
    pub(crate) fn floor(&self, value: i64) -> i64
        requires sound { IsSound self.now }
        requires low { self.now.lo ≤ℤ value }
        requires high { value <ℤ self.now.hi }
        ensures { IsFloor (holds_in self.now) value result }
    {
        prove!(value < self.hi);
        match &self.start {
            Start::Values(domain) => floor_in(domain, &self.flags, self.lo, value),
            Start::Span { .. } => value,
        }
    }

    /// The least value that is at least this one.
    pub(crate) fn ceiling(&self, value: i64) -> i64
        requires sound { IsSound self.now }
        requires low { self.now.lo <ℤ value }
        requires high { value ≤ℤ self.now.hi }
        ensures { IsCeiling (holds_in self.now) value result }
    {
        match &self.start {
            Start::Values(domain) => ceiling_in(domain, &self.flags, self.hi, value),
            Start::Span { .. } => value,
        }
    }

    /// The place of the value's flag.
    fn place(&self, value: i64) -> usize
        requires sound { IsSound self.now }
        requires suits { Suits self.now.start Rel.Ne }
        requires has { holds_in self.now value ≡ true }
        ensures { IsPlace self.now.start self.now.flags value result }
    {
        match &self.start {
            Start::Values(domain) => domain.rank(value),
            Start::Span { .. } => unreachable!(),
        }
    }
}

/// Whether the value stands in the domain and its flag is up.
fn is_up(domain: &Domain, flags: &Flags, value: i64) -> bool
    requires { length flags.now ≡ length domain.now }
    ensures { result ≡ is_kept value domain.now flags.now }
{
    let at = domain.rank(value);
    if at >= domain.size() {
        return false;
    }
    let here = domain.value_at(at);
    if here != value {
        return false;
    }
    flags.is_up(at)
}

/// The greatest value whose flag is up and that is at most `value`. `low` is such a value.
fn floor_in(domain: &Domain, flags: &Flags, low: i64, value: i64) -> i64
    requires flags { length flags.now ≡ length domain.now }
    requires low { is_kept low domain.now flags.now ≡ true }
    requires below { low ≤ℤ value }
    requires room { value <ℤ pos (2 ^ 63 - 1) }
    ensures { IsFloor (λ x. is_kept x domain.now flags.now) value result }
{
    let below = domain.rank(value + 1);
    domain.value_at(flags.last_up(below) - 1)
}

/// The least value whose flag is up and that is at least `value`. `high` is such a value.
fn ceiling_in(domain: &Domain, flags: &Flags, high: i64, value: i64) -> i64
    requires flags { length flags.now ≡ length domain.now }
    requires high { is_kept high domain.now flags.now ≡ true }
    requires above { value ≤ℤ high }
    ensures { IsCeiling (λ x. is_kept x domain.now flags.now) value result }
{
    let from = domain.rank(value);
    domain.value_at(flags.first_up(from))
}
