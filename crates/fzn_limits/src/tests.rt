//! Counts of texts.
use crate::{
    TooMany, argument_entries, count_items, entries_are_bounded, first_unknown_constraint,
};
use dom_core::Name;
use dom_limits::Counted;
use fzn_lex::lex;
use fzn_symbols::scope_of;
use fzn_syntax::{
    Basic, Constraint, Declaration, Expression, Identifier, IndexRange, Items, Parameter,
    ParameterArray, ParameterType, Sequence, Solve, SolveGoal, VariableDeclaration, VariableType,
    parse,
};
use std::alloc::{AllocError, Global};
use std::test::Fail;

fn shared<T: Send + Sync>(_: &T) {}

fn items(rt: &HostRuntime, text: &str) -> Result<Items, Fail> {
    let tokens = lex(rt.alloc(), text.as_bytes())?;
    Ok(parse(rt.alloc(), text.as_bytes(), tokens.as_slice())?)
}

fn nameless(alloc: Global) -> Identifier {
    Identifier {
        name: Name::from_vec(Vec::new(alloc)),
        at: 0,
    }
}

fn list(alloc: Global, entries: u32) -> Result<Expression, AllocError> {
    let mut basics = Vec::new(alloc);
    for _ in 0..entries {
        basics.push(Basic::True)?;
    }
    Ok(Expression::List(Sequence::from_vec(basics)))
}

// So many variables, and behind them an array of parameters with so many entries.
fn declarations(
    alloc: Global,
    variables: u32,
    entries: u32,
) -> Result<Sequence<Declaration>, AllocError> {
    let mut declarations = Vec::new(alloc);
    for _ in 0..variables {
        declarations.push(Declaration::Variable(VariableDeclaration {
            element: VariableType::Bool,
            name: nameless(alloc),
            annotations: Sequence::from_vec(Vec::new(alloc)),
            value: None,
        }))?;
    }
    declarations.push(Declaration::ParameterArray(ParameterArray {
        index: IndexRange { first: 1, last: 1 },
        entries: Parameter {
            element: ParameterType::Bool,
            name: nameless(alloc),
            value: list(alloc, entries)?,
        },
    }))?;
    Ok(Sequence::from_vec(declarations))
}

// So many constraints, and behind them one with a list of so many entries.
fn constraints(
    alloc: Global,
    count: u32,
    entries: u32,
) -> Result<Sequence<Constraint>, AllocError> {
    let mut constraints = Vec::new(alloc);
    for _ in 0..count {
        constraints.push(Constraint {
            name: nameless(alloc),
            arguments: Sequence::from_vec(Vec::new(alloc)),
            annotations: Sequence::from_vec(Vec::new(alloc)),
        })?;
    }
    let mut arguments = Vec::new(alloc);
    arguments.push(list(alloc, entries)?)?;
    constraints.push(Constraint {
        name: nameless(alloc),
        arguments: Sequence::from_vec(arguments),
        annotations: Sequence::from_vec(Vec::new(alloc)),
    })?;
    Ok(Sequence::from_vec(constraints))
}

// A text of these, without a goal.
fn without_goal(
    alloc: Global,
    declarations: Sequence<Declaration>,
    constraints: Sequence<Constraint>,
) -> Items {
    Items {
        predicates: Sequence::from_vec(Vec::new(alloc)),
        declarations,
        constraints,
        solve: Solve {
            at: 0,
            annotations: Sequence::from_vec(Vec::new(alloc)),
            goal: SolveGoal::Satisfy,
        },
    }
}

// So many variables, constraints, and entries of a value and of an argument; what is told of them.
const SIZES: [(u32, u32, u32, u32, Option<TooMany>); 6] = [
    (0, 0, 0, 0, None),
    (100_000, 99_999, 100_000, 100_000, None),
    (
        100_001,
        100_000,
        100_001,
        100_001,
        Some(TooMany {
            what: Counted::Variables,
            count: 100_001,
        }),
    ),
    (
        100_000,
        100_000,
        100_001,
        0,
        Some(TooMany {
            what: Counted::Constraints,
            count: 100_001,
        }),
    ),
    (
        1,
        1,
        100_001,
        100_002,
        Some(TooMany {
            what: Counted::ArrayEntries,
            count: 100_001,
        }),
    ),
    (
        1,
        1,
        100_000,
        100_002,
        Some(TooMany {
            what: Counted::ArrayEntries,
            count: 100_002,
        }),
    ),
];

#[test]
fn the_first_thing_that_is_too_many_is_told(rt: HostRuntime) -> Result<(), Fail> {
    let alloc = rt.alloc();
    for (variables, others, value, argument, want) in &SIZES {
        let items = without_goal(
            alloc,
            declarations(alloc, *variables, *value)?,
            constraints(alloc, *others, *argument)?,
        );
        assert!(rt; count_items(&items).err() == *want, "the first of them");
    }
    Ok(())
}

#[test]
fn lists_in_a_text_are_not_too_long(rt: HostRuntime) -> Result<(), Fail> {
    let text =
        "array [1..2] of var int: a :: f([1,2]) = [1,2]; constraint p(a,[a]); solve satisfy;";
    let items = items(&rt, text)?;
    assert!(rt; count_items(&items).is_ok(), "two lists");
    Ok(())
}

#[test]
fn the_first_unknown_constraint_is_told(rt: HostRuntime) -> Result<(), Fail> {
    for (text, want) in [
        ("solve satisfy;", None),
        ("constraint int_eq(1,2); solve satisfy;", None),
        ("constraint int_eqs(1,2); solve satisfy;", Some(11)),
        (
            "constraint int_eq(1,2); constraint p(); constraint q(); solve satisfy;",
            Some(35),
        ),
    ] {
        let items = items(&rt, text)?;
        assert_eq!(rt;
            first_unknown_constraint(items.constraints.as_slice()),
            want,
            "{text}"
        );
    }
    Ok(())
}

const DECLARED: &str = "array [1..3] of int: c = [1,2,3];
array [1..2] of var int: x = [1,1];
array [1..-1] of int: e = [];
array [1..4611686018427387904] of int: h = [];
int: n = 4;
var int: v;
";

#[test]
fn entries_of_arguments_are_added(rt: HostRuntime) -> Result<(), Fail> {
    for (constraints, want) in [
        ("", 0),
        ("constraint p(n,v,3,true,1..9,{1,2},e,[]);", 0),
        ("constraint p(c);", 3),
        ("constraint p(x,[v,n,1,v]);", 6),
        ("constraint p(c,[c],x); constraint q(); constraint q(c);", 9),
        ("constraint p(h,h,h);", 13_835_058_055_282_163_712),
        ("constraint p(h,h); constraint p(h,h);", u64::MAX),
    ] {
        let mut text = String::new(rt.alloc());
        text.push_str(DECLARED)?;
        text.push_str(constraints)?;
        text.push_str("solve satisfy;")?;
        let items = items(&rt, text.as_str())?;
        let scope = scope_of(rt.alloc(), &items)?;
        let count = argument_entries(&scope, items.constraints.as_slice());
        assert_eq!(rt; count, want, "{constraints}");
    }
    entries_are_bounded();
    Ok(())
}

#[test]
fn errors_are_told_in_words(rt: HostRuntime) -> Result<(), Fail> {
    for (what, words) in [
        (Counted::Variables, "too many variables: 7"),
        (Counted::Constraints, "too many constraints: 7"),
        (Counted::ArrayEntries, "too many array entries: 7"),
        (Counted::ArgumentEntries, "too many argument entries: 7"),
        (Counted::Free, "too many free variables: 7"),
    ] {
        let error = TooMany { what, count: 7 };
        shared(&error);
        let told = format!(in rt.alloc(); "{error}")?;
        assert!(rt; told.as_str() == words, "{words}");
    }
    Ok(())
}
