//! Texts with their models and their first faults.
use crate::{ModelError, items_have_one_answer, lower};
use dom_core::VarId;
use dom_model::Model;
use fzn_lex::lex;
use fzn_syntax::parse;
use std::test::Fail;

fn shared<T: Send + Sync>(_: &T) {}

// What the items of a text are lowered to; `Memory` where it has none.
fn answer(rt: &HostRuntime, text: &str) -> Result<Model, ModelError> {
    let Ok(tokens) = lex(rt.alloc(), text.as_bytes()) else {
        return Err(ModelError::Memory);
    };
    let Ok(items) = parse(rt.alloc(), text.as_bytes(), tokens.as_slice()) else {
        return Err(ModelError::Memory);
    };
    lower(rt.alloc(), &items)
}

const FAULTS: [(&str, ModelError); 18] = [
    (
        "var 0..1: x;\nvar 0..1: x;\nsolve satisfy;\n",
        ModelError::NameTwice { at: 23 },
    ),
    ("solve minimize y;\n", ModelError::UnknownName { at: 15 }),
    (
        "float: f = 1.0;\nconstraint none();\nsolve minimize y;\n",
        ModelError::UnknownName { at: 50 },
    ),
    (
        "float: f = 1.0;\nconstraint none();\nsolve satisfy;\n",
        ModelError::UnknownConstraint { at: 27 },
    ),
    (
        "float: f = 1.0;\nsolve satisfy;\n",
        ModelError::FloatOrSet { at: 7 },
    ),
    (
        "var set of 1..3: s;\nsolve satisfy;\n",
        ModelError::FloatOrSet { at: 17 },
    ),
    (
        "int: n = m;\nint: m = n;\nsolve satisfy;\n",
        ModelError::WrongArguments { at: 5 },
    ),
    (
        "array [1..2] of int: c = [1];\nsolve satisfy;\n",
        ModelError::WrongArguments { at: 21 },
    ),
    (
        "var 0..3: x;\nconstraint int_lin_le([1,2],[x],3);\nsolve satisfy;\n",
        ModelError::WrongArguments { at: 24 },
    ),
    (
        "var 0..3: x;\nconstraint int_lin_le([1],[x],0.5);\nsolve satisfy;\n",
        ModelError::FloatOrSet { at: 24 },
    ),
    (
        "bool: b = true;\nsolve minimize b;\n",
        ModelError::WrongArguments { at: 16 },
    ),
    (
        "var int: x;\nsolve minimize y;\n",
        ModelError::UnknownName { at: 27 },
    ),
    (
        "var 3..2: x;\nconstraint int_times(x,x,x);\nsolve satisfy;\n",
        ModelError::NotBuilt,
    ),
    (
        "var 0..3: x;\nvar 0..3: y;\nconstraint int_lin_eq([1,-1],[x,y],0) :: defines_var(x);\nconstraint int_lin_eq([1,-1],[x,y],1) :: defines_var(y);\nsolve satisfy;\n",
        ModelError::CyclicDefinition { var: VarId(0) },
    ),
    (
        "var bool: b;\nvar 3..2: x;\nvar int: y;\nsolve satisfy;\n",
        ModelError::EmptyDomain { var: VarId(1) },
    ),
    (
        "var int: x;\nvar 3..2: y;\nsolve satisfy;\n",
        ModelError::Unbounded { var: VarId(0) },
    ),
    (
        "var 0..4096: x;\nsolve satisfy;\n",
        ModelError::DomainTooLarge {
            var: VarId(0),
            count: 4_097,
        },
    ),
    (
        "var {1125899906842624}: x;\nconstraint int_lin_le([-1125899906842624,1],[x,1],0);\nsolve satisfy;\n",
        ModelError::TooWide { constraint: 1 },
    ),
];

#[test]
fn the_first_fault_is_told(rt: HostRuntime) -> Result<(), Fail> {
    for (text, error) in FAULTS {
        assert_eq!(rt; answer(&rt, text).err(), Some(error), "{text}");
    }
    items_have_one_answer();
    Ok(())
}

const UNBUILT: [&str; 5] = [
    "var 0..3: x;\nconstraint int_times(x,x,x);\nsolve satisfy;\n",
    "var 0..3: x;\nconstraint int_max(x,2,x);\nsolve satisfy;\n",
    "var 0..3: x;\nconstraint set_in(x,1..2);\nsolve satisfy;\n",
    "var 0..3: x;\nvar 0..3: y;\nconstraint fzn_all_different_int([x,y]);\nsolve satisfy;\n",
    "var 1..3: x;\nvar 0..9: y;\nconstraint array_int_element(x,[7,5,6],y);\nsolve satisfy;\n",
];

#[test]
fn what_is_not_built_is_told(rt: HostRuntime) -> Result<(), Fail> {
    for text in UNBUILT {
        assert_eq!(rt;
            answer(&rt, text).err(),
            Some(ModelError::NotBuilt),
            "{text}"
        );
    }
    Ok(())
}

const BUILT: &str = "predicate p(var int: x);
array [1..2] of int: c = [1,n];
int: n = m;
int: m = 2;
array [1..2] of var int: xs :: domain = [x,y];
var 0..3: x :: output_var;
bool: unused = true;
var -1..3: y :: a([1.5, \"text\"]);
constraint int_lin_le(c,xs,n) :: bounds;
constraint int_lin_le([1,-1],[y,y],m);
solve :: int_search(xs) minimize y;
";

#[test]
fn parameters_and_arrays_stand_for_their_values(rt: HostRuntime) -> Result<(), Fail> {
    let model = answer(&rt, BUILT).ok().ok_or("the text has a model")?;
    shared(&model);
    assert_eq!(rt; model.vars(), 2);
    assert_eq!(rt;
        answer(&rt, "solve satisfy;")
            .ok()
            .ok_or("no variables")?
            .vars(),
        0
    );
    Ok(())
}

#[test]
fn errors_are_told_in_words(rt: HostRuntime) -> Result<(), Fail> {
    let twice = ModelError::NameTwice { at: 3 }.to_string(rt.alloc())?;
    assert_eq!(rt; twice.as_str(), "name declared twice at byte 3");
    let wrong = ModelError::WrongArguments { at: 0 }.to_string(rt.alloc())?;
    assert_eq!(rt; wrong.as_str(), "wrong arguments at byte 0");
    Ok(())
}
