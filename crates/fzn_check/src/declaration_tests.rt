//! Declarations and goals, right and wrong.
use crate::{
    Fault, declarations_have_one_first_fault, declares_float_or_set, first_declaration_fault,
    has_float_or_set, is_float_or_set, is_well_typed, names_float_or_set, solve_fault,
};
use fzn_lex::lex;
use fzn_symbols::scope_of;
use fzn_syntax::{Declaration, Items, parse};
use std::test::Fail;

fn shared<T: Send + Sync>(_: &T) {}

// Declarations with their first fault: whether it is a float or a set variable, and the byte of the name.
const DECLARATIONS: [(&str, Option<(bool, u64)>); 95] = [
    ("int: a = 3;", None),
    ("int: a = b; int: b = 3;", None),
    ("bool: a = true; bool: b = a;", None),
    (
        "set of int: s = {1,4}; set of 1..3: t = 1..3; set of 2..1: u = s;",
        None,
    ),
    ("var int: x; var 1..3: y = 2; var bool: b = true;", None),
    (
        "var int: x = a; int: a = 1; var bool: b = c; var bool: c;",
        None,
    ),
    ("var int: x = x;", None),
    ("array [1..2] of int: a = [1,n]; int: n = 2;", None),
    ("array [1..0] of int: a = [];", None),
    (
        "array [1..2] of bool: a = [true,false]; array [1..2] of bool: b = a;",
        None,
    ),
    ("array [1..2] of set of int: s = [{1},2..3];", None),
    (
        "array [1..3] of var int: xs = [x,n,4]; var 0..1: x; int: n = 1;",
        None,
    ),
    (
        "array [1..2] of var bool: bs = [true,b]; var bool: b;",
        None,
    ),
    ("array [1..0] of var int: xs = [];", None),
    (
        "var 0..1: x :: output_array; var int: y :: output_array([0..5,7..9]);",
        None,
    ),
    (
        "array [1..4] of var int: xs :: output_array([1..2,{3,4}]) = [1,2,3,4];",
        None,
    ),
    (
        "array [1..0] of var int: xs :: output_array([2..1]) = [];",
        None,
    ),
    (
        "array [1..1] of var int: xs :: output_array([1..1,1..1,1..1,1..1,1..1,1..1]) = [1];",
        None,
    ),
    (
        "array [1..1] of var int: xs :: output_var :: a(output_array) = [1];",
        None,
    ),
    ("var int: x = y; var int: y = x;", None),
    ("int: a = true;", Some((false, 5))),
    ("bool: a = 1;", Some((false, 6))),
    ("int: a = [1];", Some((false, 5))),
    ("int: a = 1..2;", Some((false, 5))),
    ("set of int: a = 1;", Some((false, 12))),
    ("int: a = x; var int: x;", Some((false, 5))),
    (
        "int: a = xs; array [1..1] of int: xs = [1];",
        Some((false, 5)),
    ),
    ("int: a = b; bool: b = true;", Some((false, 5))),
    ("bool: b = true; var int: x = b;", Some((false, 25))),
    ("var int: x = [1];", Some((false, 9))),
    ("var int: x = true;", Some((false, 9))),
    (
        "var int: x = xs; array [1..1] of var int: xs = [1];",
        Some((false, 9)),
    ),
    ("array [0..1] of int: a = [1,2];", Some((false, 21))),
    ("array [2..2] of int: a = [1,2];", Some((false, 21))),
    ("array [1..1] of int: a = [1,2];", Some((false, 21))),
    ("array [1..3] of int: a = [1,2];", Some((false, 21))),
    ("array [1..-1] of int: a = [];", Some((false, 22))),
    (
        "array [1..-1] of int: a = b; array [1..-1] of int: b = [];",
        Some((false, 22)),
    ),
    ("array [1..2] of int: a = [1,true];", Some((false, 21))),
    (
        "array [1..1] of int: a = [x]; var int: x;",
        Some((false, 21)),
    ),
    (
        "array [1..1] of int: a = [b]; array [1..1] of int: b = [1];",
        Some((false, 21)),
    ),
    (
        "array [1..2] of int: a = b; array [1..1] of int: b = [1];",
        Some((false, 21)),
    ),
    (
        "array [1..1] of int: a = b; array [1..1] of bool: b = [true];",
        Some((false, 21)),
    ),
    (
        "array [1..1] of int: a = b; array [1..1] of var int: b = [1];",
        Some((false, 21)),
    ),
    ("array [1..1] of int: a = 1;", Some((false, 21))),
    (
        "array [1..1] of var int: xs = a; array [1..1] of int: a = [1];",
        Some((false, 25)),
    ),
    (
        "array [1..1] of var int: xs = ys; array [1..1] of var int: ys = [1];",
        Some((false, 25)),
    ),
    ("array [0..0] of var int: xs = [1];", Some((false, 25))),
    ("array [1..2] of var int: xs = [1];", Some((false, 25))),
    ("array [1..1] of var int: xs = [true];", Some((false, 25))),
    (
        "array [1..1] of var bool: xs = [x]; var int: x;",
        Some((false, 26)),
    ),
    ("array [1..1] of var int: xs = [{1}];", Some((false, 25))),
    (
        "array [1..1] of var int: xs :: output_array = [1];",
        Some((false, 25)),
    ),
    (
        "array [1..1] of var int: xs :: output_array([]) = [1];",
        Some((false, 25)),
    ),
    (
        "array [1..1] of var int: xs :: output_array([1..1,1..1,1..1,1..1,1..1,1..1,1..1]) = [1];",
        Some((false, 25)),
    ),
    (
        "array [1..2] of var int: xs :: output_array([1..1]) = [1,2];",
        Some((false, 25)),
    ),
    (
        "array [1..2] of var int: xs :: output_array([{1,3}]) = [1,2];",
        Some((false, 25)),
    ),
    (
        "array [1..0] of var int: xs :: output_array([{}]) = [];",
        Some((false, 25)),
    ),
    (
        "array [1..2] of var int: xs :: output_array([1..2]) :: output_array([1..1]) = [1,2];",
        Some((false, 25)),
    ),
    (
        "array [1..2] of var int: xs :: output_array([1..2],1) = [1,2];",
        Some((false, 25)),
    ),
    ("int: a = a;", Some((false, 5))),
    ("int: a = b; int: b = a;", Some((false, 5))),
    ("int: c = a; int: a = b; int: b = a;", Some((false, 17))),
    ("array [1..1] of int: a = a;", Some((false, 21))),
    (
        "array [1..1] of int: a = b; array [1..1] of int: b = a;",
        Some((false, 21)),
    ),
    ("var int: x = a; int: a = x;", Some((false, 21))),
    (
        "array [1..1] of var int: xs = [a]; int: a = xs;",
        Some((false, 40)),
    ),
    ("int: a = true; int: b = 1.5;", Some((false, 5))),
    ("float: a = 1.5;", Some((true, 7))),
    ("set of float: a = {};", Some((true, 14))),
    ("set of {1,2.5}: a = {};", Some((true, 16))),
    ("set of 1..2.5: a = {};", Some((true, 15))),
    ("var float: x;", Some((true, 11))),
    ("var 1..2.5: x;", Some((true, 12))),
    ("var {1.5}: x;", Some((true, 11))),
    ("var set of int: x;", Some((true, 16))),
    ("var set of 1..3: x;", Some((true, 17))),
    ("int: a = 1.5;", Some((true, 5))),
    ("set of int: a = 1..2.5;", Some((true, 12))),
    ("set of int: a = 1.5..2;", Some((true, 12))),
    ("set of int: a = {1,2.5};", Some((true, 12))),
    ("var int: x = 1e5;", Some((true, 9))),
    ("int: a = b; float: b = 1.0;", Some((true, 5))),
    ("var int: x = y; var set of int: y;", Some((true, 9))),
    ("array [1..2] of float: a = [];", Some((true, 23))),
    ("array [0..7] of float: a = [true];", Some((true, 23))),
    ("array [1..1] of int: a = [1.5];", Some((true, 21))),
    ("array [1..2] of int: a = [true,1..2.5];", Some((true, 21))),
    (
        "array [1..1] of int: a = b; array [1..1] of float: b = [];",
        Some((true, 21)),
    ),
    (
        "array [1..1] of var int: xs = [x]; var float: x;",
        Some((true, 25)),
    ),
    ("array [1..1] of var set of int: xs = [];", Some((true, 32))),
    ("array [1..1] of var int: xs = 1.5;", Some((true, 25))),
    ("float: a = a;", Some((true, 7))),
    ("int: a = 1.5; int: b = true;", Some((true, 5))),
    (
        "int: a = 1; var int: y; var float: x; int: b = c; int: c = b;",
        Some((true, 35)),
    ),
];

// Texts with the fault of their goal.
const GOALS: [(&str, Option<(bool, u64)>); 10] = [
    ("var int: x; solve satisfy;", None),
    ("var 0..3: x; solve minimize x;", None),
    ("var {1}: x; solve maximize x;", None),
    ("var bool: x; solve minimize x;", Some((false, 13))),
    ("int: x = 1; solve maximize x;", Some((false, 12))),
    (
        "array [1..1] of var int: x = [1]; solve minimize x;",
        Some((false, 34)),
    ),
    ("var float: x; solve minimize x;", Some((true, 14))),
    ("float: x = 1.5; solve maximize x;", Some((true, 16))),
    ("var set of int: x; solve minimize x;", Some((true, 19))),
    (
        "array [1..1] of float: x = [1.5]; solve minimize x;",
        Some((true, 34)),
    ),
];

fn items_of(rt: &HostRuntime, text: &str) -> Result<Items, Fail> {
    let tokens = lex(rt.alloc(), text.as_bytes()).ok().ok_or("tokens")?;
    let items = parse(rt.alloc(), text.as_bytes(), &tokens)
        .ok()
        .ok_or("items")?;
    Ok(items)
}

// Whether it is of a float or a set variable, and its byte.
fn placed(fault: Option<Fault>) -> Option<(bool, u64)> {
    match fault {
        None => None,
        Some(Fault::FloatOrSet { at }) => Some((true, at)),
        Some(Fault::IllTyped { at }) => Some((false, at)),
    }
}

// The first fault of these declarations.
fn fault_of(rt: &HostRuntime, declarations: &str) -> Result<Option<(bool, u64)>, Fail> {
    let text = format!(in rt.alloc(); "{declarations} solve satisfy;")?;
    let items = items_of(rt, text.as_str())?;
    let scope = scope_of(rt.alloc(), &items).ok().ok_or("names")?;
    let fault = first_declaration_fault(rt.alloc(), &scope)?;
    Ok(placed(fault))
}

// The fault of this text's goal.
fn goal_fault_of(rt: &HostRuntime, text: &str) -> Result<Option<(bool, u64)>, Fail> {
    let items = items_of(rt, text)?;
    let scope = scope_of(rt.alloc(), &items).ok().ok_or("names")?;
    Ok(placed(solve_fault(&scope, &items.solve)))
}

#[test]
fn the_first_declaration_at_fault_is_told(rt: HostRuntime) -> Result<(), Fail> {
    declarations_have_one_first_fault();
    for (text, fault) in DECLARATIONS {
        assert!(rt; fault_of(&rt, text)? == fault, "{text}");
    }
    Ok(())
}

#[test]
fn goals_are_integer_variables(rt: HostRuntime) -> Result<(), Fail> {
    for (text, fault) in GOALS {
        assert!(rt; goal_fault_of(&rt, text)? == fault, "{text}");
    }
    Ok(())
}

// The name, whether it is of a float or a set variable, whether its declaration has one, and whether
// it is right but for that.
const JUDGED: [(&str, bool, bool, bool); 4] = [
    ("x", false, true, false),
    ("y", true, true, true),
    ("a", false, false, true),
    ("xs", false, false, false),
];

#[test]
fn one_declaration_is_judged_by_itself(rt: HostRuntime) -> Result<(), Fail> {
    shared(&Fault::IllTyped { at: 1 });
    let text = "var int: x = 1.5; var float: y; int: a = 3; array [1..2] of int: xs = [a];";
    let text = format!(in rt.alloc(); "{text} solve satisfy;")?;
    let items = items_of(&rt, text.as_str())?;
    let scope = scope_of(rt.alloc(), &items).ok().ok_or("names")?;
    for (name, of_float, has_float, right) in JUDGED {
        let declaration = scope.declaration(name.as_bytes()).ok_or("a declaration")?;
        assert!(rt; is_float_or_set(declaration) == of_float, "{name}");
        assert!(rt;
            names_float_or_set(&scope, name.as_bytes()) == of_float,
            "{name}"
        );
        assert!(rt;
            declares_float_or_set(&scope, declaration) == has_float,
            "{name}"
        );
        assert!(rt;
            is_well_typed(rt.alloc(), &scope, declaration)? == right,
            "{name}"
        );
        if let Declaration::Parameter(parameter) = declaration {
            assert!(rt;
                has_float_or_set(&scope, &parameter.value) == has_float,
                "{name}"
            );
        }
    }
    Ok(())
}
