//! Clauses.
ghost use Rattle.std.specs.Prelude.{◌≡◌, IfOk, true};
ghost use Rattle.kind_truths.specs.Operand.{operands_of};
ghost use Rattle.kind_truths.specs.Connective.{AreSingle, truth_of_clause};

use dom_cells::{Cells, Hulls, Point, Region};
use dom_core::{After, Arg, Assignment, Clause, Intervals, Literal, VarId, View};
use kind_law::{Kind, Propagate, Scratch, Visited, next_of, reason_of, visit_of};
use kind_truths::{Operand, Parts, all_refuted, operands_of, some_certain, some_moves, vars_of};
use std::alloc::{AllocError, Global};
use std::marker::Model;

/// A clause: some argument of the first list is true, or some argument of the second is false. A value of 1 or more is
/// true, one of 0 or less is false.
#[derive(Drop)]
pub struct BoolClause {
    operands: Vec<Operand>,
    vars: Vec<VarId>,
    single: bool,
}

impl Model for BoolClause {
    ghost use Rattle.std.specs.Prelude.{List};
    ghost use Rattle.kind_truths.specs.Connective.{IsClauseKept};
    ghost use Rattle.kind_truths.specs.declared.operand.Operand.{Operand};

    ghost Value = { List Operand };

    ghost view = { λ k. k.operands.items };

    ghost invariant = { λ k. IsClauseKept k.vars.items k.single k.operands.items };
}

impl BoolClause {
    /// The clause of the arguments.
    pub fn new(alloc: Global, ps: &[Arg], ns: &[Arg]) -> Result<BoolClause, AllocError>
        ensures { IfOk result (λ k. k ≡ operands_of ps.now ns.now) }
    {
        let operands = operands_of(alloc, ps, ns)?;
        let vars = vars_of(alloc, operands.as_slice())?;
        let single = vars.is_single();
        Ok(BoolClause {
            operands,
            vars: vars.into_vars(),
            single,
        })
    }

    /// The clause as a disjunction whose output is 1.
    fn parts(&self) -> Parts<'_>
        ensures { result ≡ truth_of_clause self.now }
    {
        Parts::new(self.operands.as_slice(), false, Arg::Const(1))
    }
}

impl Kind for BoolClause {
    ghost use Rattle.std.specs.Prelude.{false, []};
    ghost use Rattle.kind_truths.specs.Operand.{operand_vars};
    ghost use Rattle.kind_truths.specs.BoolClause.{clause_met, clause_kept, clause_refuted};
    ghost use Rattle.kind_law.specs.TotalLaws.{no_size};
    ghost use Rattle.kind_truths.specs.BoolClauseLaws.{clause-fits, clause-width, clause-measured, clause-shrink, clause-fixed, clause-keep, clause-still};

    ghost vars = { operand_vars };

    ghost inside = { λ k v. false };

    ghost measured = { λ k. [] };

    ghost size = { λ k s. 0 };

    ghost fits = { λ k s. Unit {0} };

    ghost met = { clause_met };

    ghost kept = { clause_kept };

    ghost refuted = { clause_refuted };

    fn vars(&self) -> &[VarId] {
        self.vars.as_slice()
    }

    fn is_inside(&self, _var: VarId) -> bool {
        false
    }

    fn is_too_wide<I: Intervals>(&self, _intervals: &I) -> bool {
        false
    }

    fn holds(&self, a: &Assignment) -> bool {
        some_certain(self.operands.as_slice(), &Point(a))
    }

    fn keeps(&self, view: &View) -> bool {
        if !some_moves(self.operands.as_slice(), view, false) {
            return true;
        }
        some_certain(self.operands.as_slice(), &After(view))
    }

    fn refutes_in<R: Region>(&self, cells: &R) -> bool {
        all_refuted(self.operands.as_slice(), &Hulls(cells))
    }

    ghost fits_law = { clause-fits };

    ghost width_law = { clause-width };

    ghost measured_law = { clause-measured };

    ghost size_law = { λ k. no_size };

    ghost shrink_law = { clause-shrink };

    ghost fixed_law = { clause-fixed };

    ghost keep_law = { clause-keep };

    ghost still_law = { clause-still };
}

impl Propagate for BoolClause {
    fn visit(
        &self,
        cells: &Cells,
        _scratch: &mut Scratch,
        ends: &mut Clause,
    ) -> Result<Visited, AllocError> {
        if !self.single {
            return visit_of(self, cells, ends);
        }
        self.parts().visit(cells, ends)
    }

    fn next(&self, cells: &Cells) -> Option<Literal> {
        if !self.single {
            return next_of(self, cells);
        }
        self.parts().next(cells)
    }

    fn write_reason(
        &self,
        cells: &Cells,
        implied: Option<Literal>,
        out: &mut Clause,
    ) -> Result<(), AllocError> {
        let parts = self.parts();
        match parts.verdict(cells, implied) {
            None => reason_of(self, cells, implied, out),
            Some(verdict) => parts.write_reason(cells, implied, verdict, out),
        }
    }
}
