//! Names of short texts.
use crate::{
    Constants, Entry, LiteralKind, is_literal, one_integer, one_list, one_truth, value_for,
};
use fzn_lex::lex;
use fzn_symbols::{Scope, scope_of};
use fzn_syntax::{Basic, Expression, Items, parse};
use std::alloc::Global;
use std::process::Abort;
use std::test::Fail;

fn shared<T: Send + Sync>(_: &T) {}

fn items(alloc: Global, text: &str) -> Result<Items, Fail> {
    let tokens = lex(alloc, text.as_bytes())?;
    Ok(parse(alloc, text.as_bytes(), tokens.as_slice())?)
}

const DECLARED: &str = "int: a = b;
int: b = c;
int: c = 3;
int: d = e;
int: e = d;
int: f = e;
bool: t = true;
var int: x;
array [1..2] of int: one = other;
array [1..2] of int: other = [a,4];
array [1..1] of int: round = round;
array [1..2] of var int: xs = [x,b];
bool: u = w;
bool: w = false;
bool: r = r;
var bool: v;
constraint p([7,a,b,c,d,e,f,t,x,true,1..2,{1},false,u,w,r,v],one,[a,c],round,a);
solve satisfy;
";

const VALUES: [(Option<i64>, Option<bool>, Option<Entry>); 17] = [
    (Some(7), None, Some(Entry::Constant(7))),
    (Some(3), None, Some(Entry::Constant(3))),
    (Some(3), None, Some(Entry::Constant(3))),
    (Some(3), None, Some(Entry::Constant(3))),
    (None, None, None),
    (None, None, None),
    (None, None, None),
    (None, Some(true), None),
    (None, None, Some(Entry::Variable(7))),
    (None, Some(true), None),
    (None, None, None),
    (None, None, None),
    (None, Some(false), None),
    (None, Some(false), None),
    (None, Some(false), None),
    (None, None, None),
    (None, None, None),
];

fn tells_values<R: Abort>(
    rt: &R,
    alloc: Global,
    scope: &Scope<'_>,
    basics: &[Basic],
) -> Result<(), Fail> {
    let values = Constants::new(alloc, scope)?;
    shared(&values);
    assert_eq!(rt; values.scope().declarations().len(), 16);
    assert_eq!(rt; basics.len(), 17);
    for (basic, (value, truth, entry)) in basics.iter().zip(VALUES) {
        assert!(rt; values.int_of(basic) == value, "its value");
        assert!(rt; values.truth_of(basic) == truth, "its truth value");
        assert!(rt; values.entry_of(basic) == entry, "its entry");
    }
    Ok(())
}

#[test]
fn names_have_the_values_of_their_values(rt: HostRuntime) -> Result<(), Fail> {
    one_integer();
    one_truth();
    let items = items(rt.alloc(), DECLARED)?;
    let scope = scope_of(rt.alloc(), &items)?;
    for constraint in items.constraints.as_slice() {
        if let Some(Expression::List(basics)) = constraint.arguments.as_slice().first() {
            tells_values(&rt, rt.alloc(), &scope, basics.as_slice())?;
        }
    }
    Ok(())
}

const LISTS: [Option<[i64; 2]>; 4] = [Some([3, 4]), Some([3, 3]), None, None];

fn tells_lists<R: Abort>(
    rt: &R,
    alloc: Global,
    scope: &Scope<'_>,
    arguments: &[Expression],
) -> Result<(), Fail> {
    let values = Constants::new(alloc, scope)?;
    for (argument, list) in arguments.iter().skip(1).zip(LISTS) {
        assert!(rt;
            values.list_of(argument).is_some() == list.is_some(),
            "a list"
        );
        match values.ints_of(alloc, argument)? {
            None => assert!(rt; list.is_none(), "no integers"),
            Some(ints) => {
                let wanted = list.expect(rt, "no list");
                assert!(rt; ints.as_slice() == wanted.as_slice(), "its integers");
            }
        }
    }
    Ok(())
}

#[test]
fn arrays_stand_for_lists(rt: HostRuntime) -> Result<(), Fail> {
    one_list();
    let items = items(rt.alloc(), DECLARED)?;
    let scope = scope_of(rt.alloc(), &items)?;
    for constraint in items.constraints.as_slice() {
        tells_lists(&rt, rt.alloc(), &scope, constraint.arguments.as_slice())?;
    }
    Ok(())
}

const PLACES: [Option<usize>; 5] = [None, Some(9), None, None, None];

fn tells_places<R: Abort>(
    rt: &R,
    alloc: Global,
    scope: &Scope<'_>,
    arguments: &[Expression],
) -> Result<(), Fail> {
    let values = Constants::new(alloc, scope)?;
    assert_eq!(rt; arguments.len(), 5);
    for (argument, place) in arguments.iter().zip(PLACES) {
        assert!(rt; values.place_of_list(argument) == place, "its place");
        if let Some(declaration) = scope.declarations().get(place.unwrap_or(0)) {
            let written = value_for(LiteralKind::List, declaration);
            assert!(rt;
                written.is_some_and(|value| is_literal(LiteralKind::List, value))
                    == place.is_some(),
                "its own list"
            );
        }
    }
    Ok(())
}

#[test]
fn names_lead_to_the_list_that_is_written(rt: HostRuntime) -> Result<(), Fail> {
    let items = items(rt.alloc(), DECLARED)?;
    let scope = scope_of(rt.alloc(), &items)?;
    for constraint in items.constraints.as_slice() {
        tells_places(&rt, rt.alloc(), &scope, constraint.arguments.as_slice())?;
    }
    Ok(())
}
