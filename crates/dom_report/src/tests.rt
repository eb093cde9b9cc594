ghost use Rattle.std.specs.Prelude.{◌≡◌, length, OnOk};
ghost use Rattle.dom_model.specs.Draft.{AreFitArgs};

use super::*;
use dom_core::{Arg, Name, NoMemory, VarId};
use dom_index_sets::{IndexSet, IndexSets};
use dom_model::{Args, BuildError, Declared, Form, Model, ModelBuilder, Output};
use std::alloc::Global;
use std::test::Fail;

const X: VarId = VarId(0);

const Y: VarId = VarId(1);

const FLAG: VarId = VarId(2);

const DECLARED: Declared = Declared::Range { lo: -50, hi: 50 };

// Marks an array over three variables.
fn mark_array(
    alloc: Global,
    builder: &mut ModelBuilder,
    name: &[u8],
    form: Form,
    sets: &[IndexSet],
    entries: &[Arg],
) -> Result<(), NoMemory>
    requires three { length builder.old.variables ≡ 3 }
    requires fit { AreFitArgs 3 entries.now }
    ensures { OnOk result (builder.new.variables ≡ builder.old.variables) }
{
    let array = Output::Array {
        name: Name::from_slice(alloc, name)?,
        form,
        sets: IndexSets::from_vec(sets.to_vec(alloc)?),
        entries: Args::from_vec(entries.to_vec(alloc)?),
    };
    builder.output(array)
}

// A model of three variables, of which the second is printed before the first, and of three arrays.
fn printed_in_reverse(alloc: Global) -> Result<Model, BuildError> {
    let mut builder = ModelBuilder::new(alloc);
    builder.variable("x", Form::Int, DECLARED)?;
    builder.variable("second_Y2", Form::Int, DECLARED)?;
    builder.variable("flag", Form::Bool, Declared::Any)?;
    builder.output(Output::Scalar(Y))?;
    builder.output(Output::Scalar(X))?;
    builder.output(Output::Scalar(FLAG))?;
    let three = IndexSet { lo: 1, hi: 3 };
    let xs = [Arg::Var(X), Arg::Const(5), Arg::Var(Y)];
    mark_array(alloc, &mut builder, b"xs", Form::Int, &[three], &xs)?;
    let two = IndexSet { lo: -1, hi: 0 };
    let bits = [Arg::Var(FLAG), Arg::Const(0), Arg::Const(1)];
    mark_array(
        alloc,
        &mut builder,
        b"bits",
        Form::Bool,
        &[two, three],
        &bits,
    )?;
    let none = IndexSet { lo: 2, hi: -7 };
    mark_array(alloc, &mut builder, b"empty", Form::Int, &[none], &[])?;
    builder.finish()
}

#[test]
fn the_outputs_stand_in_the_order_of_their_marks(rt: HostRuntime) -> Result<(), Fail> {
    let alloc = rt.alloc();
    let model = printed_in_reverse(alloc)?;
    assert_eq!(rt; model.vars(), 3);
    for (x, y, flag, done, want) in [
        (
            0,
            -7,
            1,
            true,
            "second_Y2 = -7;\nx = 0;\nflag = true;\nxs = array1d(1..3, [0, 5, -7]);\nbits = array2d(-1..0, 1..3, [true, false, true]);\nempty = array1d(2..-7, []);\n----------\n==========\n",
        ),
        (
            -50,
            12,
            0,
            false,
            "second_Y2 = 12;\nx = -50;\nflag = false;\nxs = array1d(1..3, [-50, 5, 12]);\nbits = array2d(-1..0, 1..3, [false, false, true]);\nempty = array1d(2..-7, []);\n----------\n",
        ),
    ] {
        let mut assignment = model.blank(alloc)?;
        assignment.set(X, x);
        assignment.set(Y, y);
        assignment.set(FLAG, flag);
        let text = answer_text(alloc, &model, &assignment, done)?;
        assert_eq!(rt; text.as_slice(), want.as_bytes(), "{want}");
    }
    Ok(())
}

#[test]
fn no_outputs_leave_the_end_alone(rt: HostRuntime) -> Result<(), Fail> {
    let alloc = rt.alloc();
    let mut builder = ModelBuilder::new(alloc);
    builder.variable("x", Form::Int, DECLARED)?;
    let model = builder.finish()?;
    let assignment = model.blank(alloc)?;
    for (done, want) in [(true, "----------\n==========\n"), (false, "----------\n")] {
        let text = answer_text(alloc, &model, &assignment, done)?;
        assert_eq!(rt; text.as_slice(), want.as_bytes());
    }
    Ok(())
}
