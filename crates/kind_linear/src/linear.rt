//! Linear relations.
ghost use Rattle.std.specs.Prelude.{◌≡◌, IfOk, length};
ghost use Rattle.kind_sum.specs.Place.{can_define};
ghost use Rattle.kind_sum.specs.Sum.{terms_of};

use dom_cells::{Cells, Region};
use dom_core::{Arg, Assignment, Clause, Intervals, Literal, Relation, VarId, View};
use kind_law::{Kind, Propagate, Scratch, Visited};
use kind_sum::{SumRelation, Term};
use std::alloc::{AllocError, Global};
use std::marker::Model;

/// A sum of variables and constants with coefficients, compared with a number.
#[derive(Drop)]
pub struct Linear {
    sum: SumRelation,
}

impl Model for Linear {
    ghost use Rattle.kind_sum.specs.SumRelation.{SumRelation};

    ghost Value = { SumRelation };

    ghost view = { λ k. k.sum };
}

impl Linear {
    ghost use Rattle.std.specs.Prelude.{◌≡◌};

    /// The relation of the sum of the arguments, each times its coefficient, to the bound.
    pub fn new(
        alloc: Global,
        coefs: &[i64],
        args: &[Arg],
        relation: Relation,
        bound: i64,
    ) -> Result<Linear, AllocError>
        requires { length coefs.now ≡ length args.now }
        ensures { IfOk result (λ k. k
            ≡ record { terms = terms_of coefs.now args.now; relation = relation; bound = bound }) }
    {
        let sum = SumRelation::new(alloc, coefs, args, relation, bound)?;
        Ok(Linear { sum })
    }

    /// The terms of the sum.
    pub fn terms(&self) -> &[Term]
        ensures { result.now ≡ self.now.terms }
    {
        self.sum.terms()
    }

    pub fn bound(&self) -> i64
        ensures { result ≡ self.now.bound }
    {
        self.sum.bound()
    }

    pub fn relation(&self) -> Relation
        ensures { result ≡ self.now.relation }
    {
        self.sum.relation()
    }

    /// Whether the relation is an equation in which the variable at this place occurs once, with the coefficient 1 or
    /// -1, so that the equation can be solved for it.
    pub fn can_define(&self, place: usize) -> bool
        ensures { result ≡ can_define self.now place }
    {
        self.sum.can_define(place)
    }
}

impl Kind for Linear {
    ghost use Rattle.std.specs.Prelude.{false};
    ghost use Rattle.kind_sum.specs.SumRelation.{sum_vars, sum_size, SumFits, sum_met, sum_kept, sum_refuted};
    ghost use Rattle.kind_sum.specs.SumRelationLaws.{sum-fits, sum-width, sum-measured, sum-size, sum-shrink, sum-fixed, sum-keep};
    ghost use Rattle.kind_sum.specs.SumRelationStill.{sum-still};

    ghost vars = { sum_vars };

    ghost inside = { λ k v. false };

    ghost measured = { sum_vars };

    ghost size = { sum_size };

    ghost fits = { SumFits };

    ghost met = { sum_met };

    ghost kept = { sum_kept };

    ghost refuted = { sum_refuted };

    fn vars(&self) -> &[VarId] {
        self.sum.vars()
    }

    fn is_inside(&self, _var: VarId) -> bool {
        false
    }

    fn is_too_wide<I: Intervals>(&self, intervals: &I) -> bool {
        self.sum.is_too_wide(intervals)
    }

    fn holds(&self, a: &Assignment) -> bool {
        self.sum.holds(a)
    }

    fn keeps(&self, view: &View) -> bool {
        self.sum.keeps(view)
    }

    fn refutes_in<R: Region>(&self, cells: &R) -> bool {
        self.sum.refutes_in(cells)
    }

    ghost fits_law = { sum-fits };

    ghost width_law = { sum-width };

    ghost measured_law = { sum-measured };

    ghost size_law = { sum-size };

    ghost shrink_law = { sum-shrink };

    ghost fixed_law = { sum-fixed };

    ghost keep_law = { sum-keep };

    ghost still_law = { sum-still };
}

impl Propagate for Linear {
    fn visit(
        &self,
        cells: &Cells,
        scratch: &mut Scratch,
        ends: &mut Clause,
    ) -> Result<Visited, AllocError> {
        self.sum.visit(cells, scratch, ends)
    }

    fn next(&self, cells: &Cells) -> Option<Literal> {
        self.sum.next(cells)
    }

    fn write_reason(
        &self,
        cells: &Cells,
        implied: Option<Literal>,
        out: &mut Clause,
    ) -> Result<(), AllocError> {
        self.sum.write_reason(cells, implied, out)
    }
}
