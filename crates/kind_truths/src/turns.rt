//! A connective's arguments, in turn.
ghost use Rattle.std.specs.Prelude.{◌≡◌};

use crate::operand::turned;
use crate::parts::Parts;
use crate::plan::Aim;
use crate::probe::{Test, end_by};
use dom_cells::Cells;
use dom_core::{Arg, Literal};
use kind_parts::Places;

/// A connective of which it is known which operands an end may be implied of.
#[derive(Drop)]
pub(crate) struct Turns<'a> {
    pub(crate) parts: &'a Parts<'a>,
    pub(crate) aim: Aim,
}

impl Places for Turns<'_> {
    ghost use Rattle.kind_truths.specs.Connective.{all_arguments, connective_refuted};
    ghost use Rattle.kind_truths.specs.Plan.{IsAimed};

    ghost args = { λ t. all_arguments t.parts.now };

    ghost refuted = { λ t. connective_refuted t.parts.now };

    ghost answers = { λ t m. IsAimed t.parts.now m t.aim };

    fn len(&self) -> usize {
        self.parts.count() + 1
    }

    fn end_at(&self, cells: &Cells, place: usize) -> Option<Literal> {
        if place == self.parts.count() {
            return self.parts.output_end(cells);
        }
        match self.aim {
            Aim::Open => None,
            Aim::Sole(own) => self.sole_end(cells, own, place),
            Aim::Every => self.operand_end(cells, place, false),
        }
    }
}

impl Turns<'_> {
    ghost use Rattle.std.specs.Prelude.{◌≡◌, ◌<◌, length};
    ghost use Rattle.dom_cells.specs.Box.{cell_of};
    ghost use Rattle.kind_law.specs.Laws.{AllBelow};
    ghost use Rattle.kind_truths.specs.Connective.{connective_vars};
    ghost use Rattle.kind_truths.specs.Plan.{IsSole, IsOperandEnd, IsOperandTold};

    /// The implied end of the operand at the place, where one alone may have an end.
    fn sole_end(&self, cells: &Cells, own: usize, place: usize) -> Option<Literal>
        requires place { place < length self.now.parts.now.operands }
        requires below { AllBelow (length cells.now.state.starts) (connective_vars self.now.parts.now) }
        requires sole { IsSole self.now.parts.now (cell_of cells.now.state) own }
        ensures { IsOperandEnd self.now.parts.now cells.now.state place result }
    {
        if place == own {
            return self.operand_end(cells, place, true);
        }
        None
    }

    /// The implied end of the operand at the place, which makes it false, or, where that is flipped, true.
    fn operand_end(&self, cells: &Cells, place: usize, flipped: bool) -> Option<Literal>
        requires place { place < length self.now.parts.now.operands }
        requires below { AllBelow (length cells.now.state.starts) (connective_vars self.now.parts.now) }
        requires told { IsOperandTold self.now.parts.now (cell_of cells.now.state) flipped place }
        ensures { IsOperandEnd self.now.parts.now cells.now.state place result }
    {
        let operand = self.parts.operand(place);
        match operand.arg {
            Arg::Const(_) => None,
            Arg::Var(var) => {
                let negated = turned(flipped, operand.negated);
                end_by(self.parts, cells, var, Test::Certain { negated })
            }
        }
    }
}
