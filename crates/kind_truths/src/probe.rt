//! Boxes with one bound more on an argument that comes once.
ghost use Rattle.std.specs.Prelude.{◌≡◌, length};
ghost use Rattle.dom_cells.specs.Box.{cell_of};
ghost use Rattle.kind_law.specs.Next.{IsFirstEnd, IsReadable};
ghost use Rattle.kind_truths.specs.Connective.{connective_refuted, connective_vars};
ghost use Rattle.kind_truths.specs.Plan.{IsAnswered, passes};

use crate::operand::is_certain;
use crate::parts::Parts;
use dom_cells::{Cells, Hulls, Kept};
use dom_core::{Interval, Intervals, Literal, VarId};
use kind_law::{Probe, are_apart, first_end};

/// What is asked of a cell: whether it makes an argument, or its negation, certainly true, or has nothing in common with
/// an interval.
#[derive(Clone, Copy)]
pub(crate) enum Test {
    Certain { negated: bool },
    Apart { other: Interval },
}

impl Test {
    /// Whether the cell passes the test.
    fn passes(self, cell: Interval) -> bool
        ensures { result ≡ passes self cell }
    {
        match self {
            Test::Certain { negated } => is_certain(negated, cell),
            Test::Apart { other } => are_apart(other, cell),
        }
    }
}

/// The implied end of the variable, where the test of its cell tells whether the box is refuted.
pub(crate) fn end_by(parts: &Parts<'_>, cells: &Cells, var: VarId, test: Test) -> Option<Literal>
    requires var { IsReadable (connective_vars parts.now) (length cells.now.state.starts) var }
    requires answers { IsAnswered parts.now cells.now.state test var }
    ensures { IsFirstEnd (connective_refuted parts.now) (cell_of cells.now.state) var result }
{
    let probe = ArgumentProbe { parts, test };
    first_end(&probe, cells, var)
}

/// A connective, asked about one argument whose cell alone tells by a test whether the box is refuted.
#[derive(Drop)]
pub(crate) struct ArgumentProbe<'a> {
    parts: &'a Parts<'a>,
    test: Test,
}

impl Probe for ArgumentProbe<'_> {
    ghost use Rattle.std.specs.Prelude.{false};
    ghost use Rattle.kind_truths.specs.Connective.{connective_vars, connective_refuted};
    ghost use Rattle.kind_truths.specs.ConnectiveLaws.{connective-shrink};
    ghost use Rattle.kind_truths.specs.Plan.{IsAnswered};

    ghost vars = { λ p. connective_vars p.parts.now };

    ghost inside = { λ p v. false };

    ghost refuted = { λ p. connective_refuted p.parts.now };

    ghost answers = { λ p m u. IsAnswered p.parts.now m p.test u };

    fn is_refuted_within(&self, cells: &Cells, literal: Literal) -> bool {
        let _width = cells.width();
        let kept = Kept { cells, literal };
        self.test.passes(Hulls(&kept).interval(literal.var))
    }

    ghost shrink_law = { λ p. connective-shrink p.parts.now };
}
