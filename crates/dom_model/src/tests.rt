ghost use Rattle.std.specs.Prelude.{◌≡◌, ◌<◌, ◌+◌, length, OnOk};
ghost use Rattle.std.specs.Bool.{OnTrue};
ghost use Rattle.dom_model.specs.Draft.{IsSmallDeclared};
ghost use Rattle.kind_law.specs.Laws.{AllBelow};

use super::*;
use dom_core::{Arg, NoMemory, Relation, VarId};
use dom_limits::Counted;
use kind_law::{Define, Kind};
use kind_linear::{Linear, LinearOutput};
use std::alloc::Global;
use std::process::Abort;
use std::test::Fail;

fn shared<T: Send + Sync>(_: &T) {}

const X: VarId = VarId(0);

const Y: VarId = VarId(1);

const FOUR: Declared = Declared::Range { lo: 0, hi: 3 };

const NONE: Declared = Declared::Range { lo: 1, hi: 0 };

const MANY: Declared = Declared::Range { lo: 0, hi: 4096 };

fn are_below(count: usize, vars: &[VarId]) -> bool
    ensures { OnTrue result (AllBelow count vars.now) }
{
    for var in vars {
        if count <= var.0 as usize {
            return false;
        }
    }
    true
}

// Adds an equation of two variables that gives the one at this place its value.
fn define(
    rt: &impl Abort,
    alloc: Global,
    builder: &mut ModelBuilder,
    coefs: &[i64; 2],
    place: usize,
) -> Result<(), NoMemory>
    requires count { length builder.old.variables ≡ 2 }
    requires few { length builder.old.constraints < 2147483648 }
    ensures variables { OnOk result (builder.new.variables ≡ builder.old.variables) }
    ensures constraints { OnOk result (length builder.new.constraints ≡ length builder.old.constraints + 1) }
{
    let args = [Arg::Var(X), Arg::Var(Y)];
    let equation = Linear::new(alloc, coefs.as_slice(), &args, Relation::Equal, 0)?;
    assert!(rt; equation.can_define(place));
    let kind = AnyKind::LinearOutput(LinearOutput::new(alloc, equation, place)?);
    assert!(rt; are_below(2, kind.vars()) && kind.is_functional());
    let var = kind.output();
    assert!(rt; (var.0 as usize) < 2);
    builder.constraint(kind, Some(var))
}

// Two variables with these declarations, and equations that define the one, the other, or both by each other.
fn outcome(
    rt: &impl Abort,
    alloc: Global,
    first: Declared,
    second: Declared,
    defined: &[usize],
    coefs: [i64; 2],
) -> Result<Model, BuildError>
    requires first { IsSmallDeclared first }
    requires second { IsSmallDeclared second }
{
    let mut builder = ModelBuilder::new(alloc);
    builder.variable("x", Form::Int, first)?;
    builder.variable("y", Form::Int, second)?;
    match defined {
        [] => {}
        [place] => define(rt, alloc, &mut builder, &coefs, *place)?,
        [place, other, ..] => {
            define(rt, alloc, &mut builder, &coefs, *place)?;
            define(rt, alloc, &mut builder, &coefs, *other)?;
        }
    }
    builder.goal(Goal::Maximize(Y));
    builder.finish()
}

fn fault(found: Result<Model, BuildError>) -> Option<BuildError> {
    match found {
        Ok(_) => None,
        Err(error) => Some(error),
    }
}

#[test]
fn the_first_fault_is_told(rt: HostRuntime) -> Result<(), Fail> {
    let alloc = rt.alloc();
    drafts_have_one_outcome();
    let apart = [1, -1];
    let wide = [1 << 62, -1];
    let cyclic = outcome(&rt, alloc, NONE, NONE, &[1, 0], apart);
    assert_eq!(rt;
        fault(cyclic),
        Some(BuildError::CyclicDefinition { var: X })
    );
    let empty = outcome(&rt, alloc, FOUR, NONE, &[1], apart);
    assert_eq!(rt; fault(empty), Some(BuildError::EmptyDomain { var: Y }));
    let unbounded = outcome(&rt, alloc, FOUR, Declared::Any, &[], apart);
    assert_eq!(rt; fault(unbounded), Some(BuildError::Unbounded { var: Y }));
    let large = outcome(&rt, alloc, MANY, NONE, &[], apart);
    let many = BuildError::DomainTooLarge {
        var: X,
        count: 4097,
    };
    assert_eq!(rt; fault(large), Some(many));
    let beyond = outcome(&rt, alloc, FOUR, Declared::Any, &[1], wide);
    assert_eq!(rt; fault(beyond), Some(BuildError::TooWide { constraint: 1 }));
    assert_eq!(rt; Counted::Free.limit(), 4096);
    Ok(())
}

#[test]
fn a_defined_variable_is_restricted_and_not_free(rt: HostRuntime) -> Result<(), Fail> {
    let alloc = rt.alloc();
    let model = outcome(&rt, alloc, FOUR, MANY, &[1], [3, -1])?;
    shared(&model);
    assert_eq!(rt; (model.vars(), model.constraints().len()), (2, 2));
    assert_eq!(rt; model.free(), [X].as_slice());
    let hull = model.hull(Y);
    assert_eq!(rt; (hull.lo(), hull.hi()), (0, 9));
    assert_eq!(rt; (model.place(X), model.place(Y)), (Some(0), None));
    assert_eq!(rt; model.definer(Y), Some(0));
    assert_eq!(rt; model.readers(Y), [0, 1].as_slice());
    let None = model.definer(X) else {
        panic!(rt; "x is defined");
    };
    assert_eq!(rt; model.dependents(X), [1].as_slice());
    assert_eq!(rt; model.domain(X).size(), 4);
    assert_eq!(rt; model.name(Y).as_bytes(), b"y".as_slice());
    assert_eq!(rt; (model.form(Y), model.outputs().len()), (Form::Int, 0));
    Ok(())
}
