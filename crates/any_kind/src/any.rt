//! Any of the kinds. A new kind has a line in the enum and in each of the two macros, and one for each ghost member and
//! law in `specs/`.

use dom_cells::{Cells, Region};
use dom_core::{Assignment, Clause, Interval, Intervals, Literal, VarId, View};
use kind_arith::InSet;
use kind_bool::{And, BoolClause, BoolClauseReified, Or, Xor};
use kind_law::{Define, Kind, Propagate, Scratch, Visited};
use kind_linear::{Linear, LinearOutput};
use kind_reified::LinearReified;
use std::alloc::AllocError;

/// A constraint of any kind.
#[derive(Drop)]
pub enum AnyKind {
    Linear(Linear),
    LinearOutput(LinearOutput),
    LinearReified(LinearReified),
    InSet(InSet),
    BoolClause(BoolClause),
    BoolClauseReified(BoolClauseReified),
    And(And),
    Or(Or),
    Xor(Xor),
}

/// The call at the kind that stands there.
macro_rules! each {
    ($any:expr, $kind:ident => $call:expr) => {
        match $any {
            AnyKind::Linear($kind) => $call,
            AnyKind::LinearOutput($kind) => $call,
            AnyKind::LinearReified($kind) => $call,
            AnyKind::InSet($kind) => $call,
            AnyKind::BoolClause($kind) => $call,
            AnyKind::BoolClauseReified($kind) => $call,
            AnyKind::And($kind) => $call,
            AnyKind::Or($kind) => $call,
            AnyKind::Xor($kind) => $call,
        }
    };
}

/// The call at the kind that stands there, or another answer where that kind never defines a variable.
macro_rules! define {
    ($any:expr, $kind:ident => $call:expr, else $never:expr) => {
        match $any {
            AnyKind::Linear(_) => $never,
            AnyKind::LinearOutput($kind) => $call,
            AnyKind::LinearReified($kind) => $call,
            AnyKind::InSet(_) => $never,
            AnyKind::BoolClause(_) => $never,
            AnyKind::BoolClauseReified($kind) => $call,
            AnyKind::And($kind) => $call,
            AnyKind::Or($kind) => $call,
            AnyKind::Xor($kind) => $call,
        }
    };
}

impl Kind for AnyKind {
    ghost use Rattle.any_kind.specs.Any.{any_vars, any_inside, any_measured, any_size, AnyFits, any_met, any_kept, any_refuted};
    ghost use Rattle.any_kind.specs.AnyLaws.{any-fits, any-width, any-measured, any-size, any-shrink, any-fixed, any-keep, any-still};

    ghost vars = { any_vars };

    ghost inside = { any_inside };

    ghost measured = { any_measured };

    ghost size = { any_size };

    ghost fits = { AnyFits };

    ghost met = { any_met };

    ghost kept = { any_kept };

    ghost refuted = { any_refuted };

    fn vars(&self) -> &[VarId] {
        each!(self, kind => kind.vars())
    }

    fn is_inside(&self, var: VarId) -> bool {
        each!(self, kind => kind.is_inside(var))
    }

    fn is_too_wide<I: Intervals>(&self, intervals: &I) -> bool {
        each!(self, kind => kind.is_too_wide(intervals))
    }

    fn holds(&self, a: &Assignment) -> bool {
        each!(self, kind => kind.holds(a))
    }

    fn keeps(&self, view: &View) -> bool {
        each!(self, kind => kind.keeps(view))
    }

    fn refutes_in<R: Region>(&self, cells: &R) -> bool {
        each!(self, kind => kind.refutes_in(cells))
    }

    ghost fits_law = { any-fits };

    ghost width_law = { any-width };

    ghost measured_law = { any-measured };

    ghost size_law = { any-size };

    ghost shrink_law = { any-shrink };

    ghost fixed_law = { any-fixed };

    ghost keep_law = { any-keep };

    ghost still_law = { any-still };
}

impl Propagate for AnyKind {
    fn visit(
        &self,
        cells: &Cells,
        scratch: &mut Scratch,
        ends: &mut Clause,
    ) -> Result<Visited, AllocError> {
        each!(self, kind => kind.visit(cells, scratch, ends))
    }

    fn next(&self, cells: &Cells) -> Option<Literal> {
        each!(self, kind => kind.next(cells))
    }

    fn write_reason(
        &self,
        cells: &Cells,
        implied: Option<Literal>,
        out: &mut Clause,
    ) -> Result<(), AllocError> {
        each!(self, kind => kind.write_reason(cells, implied, out))
    }
}

impl Define for AnyKind {
    ghost use Rattle.any_kind.specs.Any.{any_functional, any_output, any_inputs, AnyInputsFit, any_defined, any_given, any_ranged, any_own_change};
    ghost use Rattle.any_kind.specs.AnyLaws.{any-inputs, any-pass, any-input_width, any-measured_inputs, any-among, any-apart, any-parts, any-value, any-input, any-defined, any-range, any-monotone, any-own_change, any-fixes};

    ghost functional = { any_functional };

    ghost output = { any_output };

    ghost inputs = { any_inputs };

    ghost fits_inputs = { AnyInputsFit };

    ghost defined = { any_defined };

    ghost given = { any_given };

    ghost ranged = { any_ranged };

    ghost own_change = { any_own_change };

    fn is_functional(&self) -> bool {
        define!(self, kind => kind.is_functional(), else false)
    }

    fn output(&self) -> VarId {
        define!(self, kind => kind.output(), else VarId(0))
    }

    fn inputs(&self) -> &[VarId] {
        define!(self, kind => kind.inputs(), else &[])
    }

    fn is_defined_over<I: Intervals>(&self, intervals: &I) -> bool {
        define!(self, kind => kind.is_defined_over(intervals), else true)
    }

    fn value(&self, a: &Assignment) -> i64 {
        define!(self, kind => kind.value(a), else 0)
    }

    fn range<I: Intervals>(&self, intervals: &I) -> Interval {
        define!(self, kind => kind.range(intervals), else Interval::new(0, 0))
    }

    fn own_change(&self, view: &View, before: Interval, after: Interval) -> Interval {
        define!(self, kind => kind.own_change(view, before, after), else Interval::new(0, 0))
    }

    ghost inputs_law = { any-inputs };

    ghost pass_law = { any-pass };

    ghost input_width_law = { any-input_width };

    ghost measured_inputs_law = { any-measured_inputs };

    ghost among_law = { any-among };

    ghost apart_law = { any-apart };

    ghost parts_law = { any-parts };

    ghost value_law = { any-value };

    ghost input_law = { any-input };

    ghost defined_law = { any-defined };

    ghost range_law = { any-range };

    ghost monotone_law = { any-monotone };

    ghost own_change_law = { any-own_change };

    ghost fixes_law = { any-fixes };
}
