//! Restrictions to a set.
ghost use Rattle.std.specs.Prelude.{◌≡◌, ◌<◌, [], false, if◌then◌else◌, length, IfOk, OnErr};
ghost use Rattle.dom_cells.specs.Box.{cell_of};
ghost use Rattle.dom_core.specs.declared.arg.Arg.{Arg};
ghost use Rattle.kind_arith.specs.InSet.{IsNextEnd, Visits, restriction_refuted};
ghost use Rattle.kind_parts.specs.Set.{IsSorted, IsPlainOf};

use crate::ends::{lower, upper, write_ends};
use crate::shared::{greatest, least};
use dom_cells::{Cells, Region};
use dom_core::{Arg, Assignment, Clause, Interval, Intervals, Literal, Set, VarId, View};
use kind_law::{Kind, Propagate, Scratch, Visited, reason_of};
use kind_parts::{arg_vars, plain_of, set_has, set_keeps, set_meets};
use std::alloc::{AllocError, Global};
use std::marker::Model;

/// A variable or a constant that lies in a set. The set stands in its plain form: as a range where it has a value and
/// no gap, and else as its list.
#[derive(Drop)]
pub struct InSet {
    arg: Arg,
    set: Set,
    vars: Vec<VarId>,
}

impl Model for InSet {
    ghost use Rattle.std.specs.Prelude.{◌≡◌};
    ghost use Rattle.kind_law.specs.Argument.{arg_vars};
    ghost use Rattle.kind_parts.specs.Set.{IsPlain};
    ghost use Rattle.kind_arith.specs.InSet.{Restriction};

    ghost Value = { Restriction };

    ghost view = { λ k. record { arg = k.arg; set = k.set } };

    ghost invariant = { λ k. (k.vars.items ≡ arg_vars k.arg) × IsPlain k.set };
}

impl InSet {
    /// The restriction of the argument to the set.
    pub fn new(alloc: Global, x: Arg, set: &Set) -> Result<InSet, AllocError>
        requires { IsSorted set.now }
        ensures arg { IfOk result (λ k. k.arg ≡ x) }
        ensures set { IfOk result (λ k. IsPlainOf set.now k.set) }
    {
        let plain = plain_of(alloc, set)?;
        let vars = arg_vars(alloc, x)?;
        Ok(InSet {
            arg: x,
            set: plain,
            vars,
        })
    }

    /// Visits the cell of the variable that is restricted.
    #[tactic(auto, using(crate::proofs::VisitLaws::none_visited))]
    fn visit_var(&self, var: VarId, cells: &Cells, ends: &mut Clause) -> Result<Visited, AllocError>
        requires arg { self.now.arg ≡ Arg.Var var }
        requires below { var.0 < length cells.now.state.starts }
        requires empty { ends.old ≡ [] }
        ensures visited { IfOk result (λ v. Visits self.now cells.now.state v ends.new) }
        ensures none { OnErr result (ends.new ≡ []) }
    {
        let _width = cells.width();
        let Some(lo) = least(&self.set, cells, var) else {
            return Ok(Visited::Refuted);
        };
        let Some(hi) = greatest(&self.set, cells, var) else {
            return Ok(Visited::Refuted);
        };
        if let Err(error) = write_ends(cells, var, lo, hi, ends) {
            ends.clear();
            return Err(error);
        }
        Ok(Visited::Ends { more: false })
    }

    /// The first end that is implied of the variable that is restricted.
    #[tactic(auto, using(crate::proofs::VisitLaws::never_none))]
    fn next_of_var(&self, var: VarId, cells: &Cells) -> Option<Literal>
        requires arg { self.now.arg ≡ Arg.Var var }
        requires below { var.0 < length cells.now.state.starts }
        requires quiet { restriction_refuted self.now (cell_of cells.now.state) ≡ false }
        ensures { IsNextEnd self.now (cell_of cells.now.state) result }
    {
        let Some(lo) = least(&self.set, cells, var) else {
            return None;
        };
        if cells.lo(var) < lo {
            return Some(lower(var, lo));
        }
        let Some(hi) = greatest(&self.set, cells, var) else {
            return None;
        };
        if hi < cells.hi(var) {
            return Some(upper(var, hi));
        }
        None
    }
}

/// What a visit of a constant finds, by whether it lies in the set. There are no ends.
fn constant_visited(is_in: bool) -> Visited
    ensures { result ≡ (if is_in then Visited.Ends false else Visited.Refuted) }
{
    if is_in {
        return Visited::Ends { more: false };
    }
    Visited::Refuted
}

impl Kind for InSet {
    ghost use Rattle.std.specs.Prelude.{true, []};
    ghost use Rattle.kind_arith.specs.InSet.{restricted_vars, restriction_met, restriction_kept, restriction_refuted};
    ghost use Rattle.kind_law.specs.TotalLaws.{no_size};
    ghost use Rattle.kind_arith.specs.InSetLaws.{restriction-fits, restriction-width, restriction-measured, restriction-shrink, restriction-fixed, restriction-keep, restriction-still};

    ghost vars = { restricted_vars };

    ghost inside = { λ k v. true };

    ghost measured = { λ k. [] };

    ghost size = { λ k s. 0 };

    ghost fits = { λ k s. Unit {0} };

    ghost met = { restriction_met };

    ghost kept = { restriction_kept };

    ghost refuted = { restriction_refuted };

    fn vars(&self) -> &[VarId] {
        self.vars.as_slice()
    }

    fn is_inside(&self, _var: VarId) -> bool {
        true
    }

    fn is_too_wide<I: Intervals>(&self, _intervals: &I) -> bool {
        false
    }

    fn holds(&self, a: &Assignment) -> bool {
        match self.arg {
            Arg::Var(var) => set_has(&self.set, a.value(var)),
            Arg::Const(value) => set_has(&self.set, value),
        }
    }

    fn keeps(&self, view: &View) -> bool {
        match self.arg {
            Arg::Var(var) => set_keeps(&self.set, view.change(var), view.after(var)),
            Arg::Const(value) => {
                let here = Interval::new(value as i128, value as i128);
                set_keeps(&self.set, Interval::new(0, 0), here)
            }
        }
    }

    fn refutes_in<R: Region>(&self, cells: &R) -> bool {
        match self.arg {
            Arg::Var(var) => !set_meets(&self.set, cells, var),
            Arg::Const(value) => !set_has(&self.set, value),
        }
    }

    ghost fits_law = { restriction-fits };

    ghost width_law = { restriction-width };

    ghost measured_law = { restriction-measured };

    ghost size_law = { λ k. no_size };

    ghost shrink_law = { restriction-shrink };

    ghost fixed_law = { restriction-fixed };

    ghost keep_law = { restriction-keep };

    ghost still_law = { restriction-still };
}

impl Propagate for InSet {
    #[tactic(auto, using(crate::proofs::VisitLaws::constant_visited))]
    fn visit(
        &self,
        cells: &Cells,
        _scratch: &mut Scratch,
        ends: &mut Clause,
    ) -> Result<Visited, AllocError> {
        ends.clear();
        match self.arg {
            Arg::Var(var) => self.visit_var(var, cells, ends),
            Arg::Const(value) => Ok(constant_visited(set_has(&self.set, value))),
        }
    }

    #[tactic(auto, using(crate::proofs::VisitLaws::constant_next))]
    fn next(&self, cells: &Cells) -> Option<Literal> {
        match self.arg {
            Arg::Var(var) => self.next_of_var(var, cells),
            Arg::Const(_) => None,
        }
    }

    fn write_reason(
        &self,
        cells: &Cells,
        implied: Option<Literal>,
        out: &mut Clause,
    ) -> Result<(), AllocError> {
        reason_of(self, cells, implied, out)
    }
}
