//! Names of short texts.
use crate::{NameError, items_have_one_scope, scope_of};
use fzn_lex::lex;
use fzn_syntax::{Items, parse};
use std::test::Fail;

fn shared<T: Send + Sync>(_: &T) {}

fn items(rt: &HostRuntime, text: &str) -> Result<Items, Fail> {
    let tokens = lex(rt.alloc(), text.as_bytes())?;
    Ok(parse(rt.alloc(), text.as_bytes(), tokens.as_slice())?)
}

// Each of these texts declares each name that it uses, and none twice.
const FINE: [&str; 8] = [
    "solve satisfy;",
    "var int: a = b; var int: b; solve satisfy;",
    "var int: a = a; solve minimize a;",
    "array [1..2] of var int: a = [1,b]; var int: b; solve maximize b;",
    "constraint p(); solve satisfy;",
    "var int: x; constraint x(x,[x,x,2]); solve satisfy;",
    "var int: x :: f(a); constraint p() :: g(b,[c]); solve :: h(d) satisfy;",
    "predicate x(var int: y,var int: y); var int: x; solve satisfy;",
];

#[test]
fn declared_names_are_fine(rt: HostRuntime) -> Result<(), Fail> {
    for text in FINE {
        let items = items(&rt, text)?;
        assert!(rt; scope_of(rt.alloc(), &items).is_ok(), "{text}");
    }
    Ok(())
}

const DOUBLED: [(&str, u64); 4] = [
    ("var 0..1: x; var 0..1: x; solve satisfy;", 23),
    (
        "int: n = 1; array [1..1] of var int: n = [1]; solve satisfy;",
        37,
    ),
    (
        "array [1..1] of int: n = [1]; var bool: n; solve satisfy;",
        40,
    ),
    ("var int: x; var int: x = y; solve satisfy;", 21),
];

#[test]
fn the_second_declaration_of_a_name_is_told(rt: HostRuntime) -> Result<(), Fail> {
    for (text, at) in DOUBLED {
        let items = items(&rt, text)?;
        let answer = scope_of(rt.alloc(), &items).err();
        assert!(rt; answer == Some(NameError::NameTwice { at }), "{text}");
    }
    Ok(())
}

const UNKNOWN: [(&str, u64); 9] = [
    ("solve minimize y;", 15),
    ("solve maximize y;", 15),
    ("int: n = m; solve satisfy;", 9),
    ("array [1..1] of int: a = [b]; solve satisfy;", 26),
    ("array [1..2] of var int: a = [1,b]; solve satisfy;", 32),
    ("var int: x = y; var int: x; solve satisfy;", 13),
    ("var int: x; constraint p(y); solve minimize z;", 25),
    ("var int: x; constraint p(x,[x,y]); solve satisfy;", 30),
    ("var int: x; solve :: a(x) maximize y;", 35),
];

#[test]
fn the_first_name_that_is_declared_nowhere_is_told(rt: HostRuntime) -> Result<(), Fail> {
    for (text, at) in UNKNOWN {
        let items = items(&rt, text)?;
        let answer = scope_of(rt.alloc(), &items).err();
        assert!(rt; answer == Some(NameError::UnknownName { at }), "{text}");
    }
    Ok(())
}

#[test]
fn declarations_are_found_by_their_names(rt: HostRuntime) -> Result<(), Fail> {
    let text = "int: n = 2; var 0..1: x; array [1..1] of var int: a = [x]; solve satisfy;";
    let items = items(&rt, text)?;
    let scope = scope_of(rt.alloc(), &items)?;
    shared(&scope);
    assert_eq!(rt; scope.declarations().len(), 3);
    assert_eq!(rt; scope.place(b"n"), Some(0));
    assert_eq!(rt; scope.place(b"x"), Some(1));
    assert_eq!(rt; scope.place(b"a"), Some(2));
    assert_eq!(rt; scope.place(b"b"), None);
    items_have_one_scope();
    Ok(())
}
