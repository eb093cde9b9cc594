//! Solving a model, and writing the answer.
ghost use Rattle.std.specs.Prelude.{◌≡◌, ◌≤◌};
ghost use Rattle.dom_model.specs.Least.{IsLeast, width_of};
ghost use Rattle.dom_search.specs.Outcome.{AreNodes};
ghost use Rattle.dom_top.specs.Answers.{IsEarly};
ghost use Rattle.dom_top.specs.Solved.{HasNone, IsSolved};
ghost use Rattle.dom_top.specs.Written.{written};

use crate::answer::Answer;
use crate::writing::{TextError, write_text};
use dom_core::Assignment;
use dom_edge::Sink;
use dom_model::Model;
use dom_report::answer_text;
use dom_search::{Outcome, search};
use std::alloc::Global;

// Solves a model that is narrow.
pub(crate) fn solve_model<O: Sink>(alloc: Global, model: &Model, out: &mut O) -> Answer
    requires { width_of model.now ≤ 1000000 }
    ensures solved { IsSolved model.now
        (written (O.bytes out.old) (O.bytes out.new) (O.faults out.old) (O.faults out.new)) result }
    ensures late { IsEarly result → ⊥ }
    ensures kept { O.faults out.old ≤ O.faults out.new }
{
    match search(alloc, model) {
        Ok(Outcome::Best { best, nodes }) => report_best(alloc, model, &best, nodes, out),
        Ok(Outcome::None { nodes }) => report_none(model, nodes, out),
        Err(_) => Answer::NoMemory,
    }
}

// Writes the least assignment.
fn report_best<O: Sink>(
    alloc: Global,
    model: &Model,
    best: &Assignment,
    nodes: u64,
    out: &mut O,
) -> Answer
    requires least { IsLeast model.now best.now }
    requires nodes { AreNodes model.now nodes }
    ensures solved { IsSolved model.now
        (written (O.bytes out.old) (O.bytes out.new) (O.faults out.old) (O.faults out.new)) result }
    ensures late { IsEarly result → ⊥ }
    ensures kept { O.faults out.old ≤ O.faults out.new }
{
    let Ok(values) = best.to_values(alloc) else {
        return Answer::NoMemory;
    };
    let Ok(text) = answer_text(alloc, model, best, true) else {
        return Answer::NoMemory;
    };
    match write_text(out, text.as_slice()) {
        Ok(()) => Answer::Best {
            values,
            nodes,
            nogoods: 0,
        },
        Err(TextError::Fault) => Answer::WriteFault,
        Err(TextError::Memory) => Answer::NoMemory,
    }
}

// Writes that no assignment is feasible.
fn report_none<O: Sink>(model: &Model, nodes: u64, out: &mut O) -> Answer
    requires none { HasNone model.now }
    requires nodes { AreNodes model.now nodes }
    ensures solved { IsSolved model.now
        (written (O.bytes out.old) (O.bytes out.new) (O.faults out.old) (O.faults out.new)) result }
    ensures late { IsEarly result → ⊥ }
    ensures kept { O.faults out.old ≤ O.faults out.new }
{
    let _vars = model.vars();
    match write_text(out, b"=====UNSATISFIABLE=====\n") {
        Ok(()) => Answer::Infeasible { nodes, nogoods: 0 },
        Err(TextError::Fault) => Answer::WriteFault,
        Err(TextError::Memory) => Answer::NoMemory,
    }
}
