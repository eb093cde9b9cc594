//! Short texts, and what they are put together as.
ghost use Rattle.std.specs.Prelude.{◌≡◌, ◌≤◌, ◌↔◌, All, IsTrue};
ghost use Rattle.fzn_limits.specs.Sizes.{variables_in, limit};
ghost use Rattle.fzn_model.specs.Drafts.{AreFew};
ghost use Rattle.fzn_model.specs.Variables.{IsAsciiNamed};

use crate::defining::defines;
use crate::initial::initialised;
use crate::outputs::output_of;
use crate::{ResolveError, draft_of, one_draft};
use dom_core::{Arg, VarId};
use dom_index_sets::IndexSet;
use dom_model::{Form, Output};
use fzn_arguments::numbers_of;
use fzn_forms::kind_of;
use fzn_lex::lex;
use fzn_limits::count_items;
use fzn_symbols::{Scope, identifier_of, scope_of};
use fzn_syntax::{Constraint, Declaration, Items, parse};
use fzn_values::Constants;
use std::alloc::Global;
use std::process::Abort;
use std::test::Fail;

fn shared<T: Send + Sync>(_: &T) {}

fn items(alloc: Global, text: &str) -> Result<Items, Fail> {
    let tokens = lex(alloc, text.as_bytes())?;
    Ok(parse(alloc, text.as_bytes(), tokens.as_slice())?)
}

fn is_ascii_named(declaration: &Declaration) -> bool
    ensures { IsTrue result ↔ IsAsciiNamed declaration.now }
{
    identifier_of(declaration).name.as_bytes().is_ascii()
}

fn are_ascii_named(declarations: &[Declaration]) -> bool
    ensures { IsTrue result ↔ All IsAsciiNamed declarations.now }
{
    declarations
        .iter()
        .all(|declaration| is_ascii_named(declaration))
}

// Whether items are put together.
fn is_drafted(alloc: Global, scope: &Scope<'_>, items: &Items) -> Result<bool, Fail>
    requires same { scope.now ≡ items.now.declarations }
    requires ascii { All IsAsciiNamed items.now.declarations }
    requires few { AreFew items.now }
{
    let values = Constants::new(alloc, scope)?;
    match draft_of(alloc, &values, items).err() {
        None => Ok(true),
        Some(ResolveError::NotBuilt) => Ok(false),
        Some(ResolveError::Memory) => Err("no memory".into()),
    }
}

fn is_built(alloc: Global, text: &str) -> Result<bool, Fail> {
    let items = items(alloc, text)?;
    if count_items(&items).is_err() {
        return Err("too many of something".into());
    }
    if !are_ascii_named(items.declarations.as_slice()) {
        return Err("another name".into());
    }
    let scope = scope_of(alloc, &items)?;
    is_drafted(alloc, &scope, &items)
}

const TEXTS: [(&str, bool); 16] = [
    ("solve satisfy;", true),
    (
        "var bool: a; var int: x; var {3,1}: y; var 3..1: z; solve maximize x;",
        true,
    ),
    ("var 0..3: x; solve minimize x;", true),
    ("var bool: a; solve minimize a;", false),
    ("int: n = 3; solve minimize n;", false),
    ("var float: f; solve satisfy;", false),
    ("var 0.5..1.5: f; solve satisfy;", false),
    ("var set of 1..3: s; solve satisfy;", false),
    ("int: n = 3; var 0..3: x = n; solve satisfy;", true),
    ("var int: x = x; solve satisfy;", true),
    ("var bool: a = true; var bool: b = a; solve satisfy;", true),
    ("var bool: a; var int: x = a; solve satisfy;", false),
    (
        "var 0..3: x; constraint int_le(x,2) :: defines_var(x); solve satisfy;",
        true,
    ),
    (
        "var 0..3: x; constraint int_times(x,x,x); solve satisfy;",
        false,
    ),
    (
        "array [1..1] of var int: xs :: output_array([1..1]) = [7]; solve satisfy;",
        true,
    ),
    (
        "array [1..1] of var int: xs :: output_array = [7]; solve satisfy;",
        false,
    ),
];

#[test]
fn texts_are_put_together_or_not(rt: HostRuntime) -> Result<(), Fail> {
    one_draft();
    for (text, built) in TEXTS {
        assert!(rt; is_built(rt.alloc(), text)? == built, "{text}");
    }
    Ok(())
}

const DEFINING: &str = "var bool: a;
var bool: b;
var 0..9: x;
var 0..9: y;
var 0..9: z = 3;
constraint int_lin_eq([2,1],[x,y],3) :: defines_var(x) :: defines_var(y);
constraint int_lin_eq([1,-1],[x,y],3) :: bounds :: defines_var(y) :: defines_var(x);
constraint int_lin_eq([1,-1],[z,x],0) :: defines_var(z);
constraint int_lin_le([1,1],[x,y],3) :: defines_var(x);
constraint int_eq(x,x) :: defines_var(x);
constraint bool2int(a,x) :: defines_var(a);
constraint bool2int(a,x) :: defines_var(a) :: defines_var(x);
constraint bool_eq(a,b) :: defines_var(b) :: defines_var(a);
constraint bool_and(a,b,a) :: defines_var(a);
constraint bool_xor(a,true,b) :: defines_var(a) :: defines_var(b);
constraint int_eq(x,y) :: defines_var([x]) :: defines_var(x,y) :: defines_var :: note(defines_var(x));
solve satisfy;
";

const DEFINED: [Option<VarId>; 11] = [
    Some(VarId(3)),
    Some(VarId(3)),
    None,
    None,
    None,
    None,
    Some(VarId(2)),
    Some(VarId(1)),
    None,
    Some(VarId(1)),
    None,
];

// The variable that the constraint defines, where those with an initialiser are defined before it.
fn defined_by(
    alloc: Global,
    scope: &Scope<'_>,
    constraint: &Constraint,
) -> Result<Option<VarId>, Fail>
    requires { variables_in scope.now ≤ limit }
{
    let values = Constants::new(alloc, scope)?;
    let numbers = numbers_of(alloc, scope.declarations())?;
    let flags = initialised(alloc, scope.declarations())?;
    let kind = kind_of(alloc, &values, numbers.as_slice(), constraint)?;
    let name = constraint.name.name.as_bytes();
    let marks = constraint.annotations.as_slice();
    Ok(defines(
        scope,
        numbers.as_slice(),
        flags.as_slice(),
        name,
        &kind,
        marks,
    ))
}

#[test]
fn a_constraint_defines_the_first_variable_that_it_can(rt: HostRuntime) -> Result<(), Fail> {
    let items = items(rt.alloc(), DEFINING)?;
    if count_items(&items).is_err() {
        return Err("too many variables".into());
    }
    let scope = scope_of(rt.alloc(), &items)?;
    for (place, constraint) in items.constraints.as_slice().iter().enumerate() {
        let wanted = DEFINED.get(place).copied().flatten();
        assert!(rt;
            defined_by(rt.alloc(), &scope, constraint)? == wanted,
            "constraint {place}"
        );
    }
    Ok(())
}

const PRINTED: &str = "var bool: a :: output_var(1) :: output_var;
var 0..9: x :: output_array([1..1]);
var 0..9: y :: is_defined_var :: output_var;
array [1..2] of var bool: ps :: output_array([0..1]) :: output_array([1..2]) = [a,true];
array [1..1] of var int: xs :: output_var = [x];
solve satisfy;
";

// Whether this is what is printed of the declaration at the place.
fn is_printed(place: usize, output: &Option<Output>) -> bool {
    match (place, output) {
        (0, Some(Output::Scalar(var))) => *var == VarId(0),
        (2, Some(Output::Scalar(var))) => *var == VarId(2),
        (
            3,
            Some(
                Output::Array {
                    name,
                    form,
                    sets,
                    entries,
                },
            ),
        ) => {
            name.as_bytes() == b"ps".as_slice()
                && *form == Form::Bool
                && sets.as_slice() == [IndexSet { lo: 0, hi: 1 }].as_slice()
                && entries.as_slice() == [Arg::Var(VarId(0)), Arg::Const(1)].as_slice()
        }
        (1, None) => true,
        (4, None) => true,
        _ => false,
    }
}

// What is printed of the declaration at the place.
fn printed_at(alloc: Global, scope: &Scope<'_>, place: usize) -> Result<Option<Output>, Fail>
    requires { variables_in scope.now ≤ limit }
{
    let values = Constants::new(alloc, scope)?;
    let numbers = numbers_of(alloc, scope.declarations())?;
    let declaration = scope.declarations().get(place).ok_or("a declaration")?;
    let number = numbers.as_slice().get(place).copied().ok_or("a number")?;
    Ok(output_of(alloc, &values, numbers.as_slice(), number, declaration)?)
}

#[test]
fn the_first_mark_is_printed(rt: HostRuntime) -> Result<(), Fail> {
    let items = items(rt.alloc(), PRINTED)?;
    if count_items(&items).is_err() {
        return Err("too many variables".into());
    }
    let scope = scope_of(rt.alloc(), &items)?;
    for place in 0..5 {
        let output = printed_at(rt.alloc(), &scope, place)?;
        assert!(rt; is_printed(place, &output), "declaration {place}");
    }
    Ok(())
}

#[test]
fn errors_are_told_in_words(rt: HostRuntime) -> Result<(), Fail> {
    shared(&ResolveError::NotBuilt);
    let text = ResolveError::NotBuilt.to_string(rt.alloc())?;
    assert_eq!(rt; text.as_str(), "not built");
    let memory = ResolveError::Memory.to_string(rt.alloc())?;
    assert_eq!(rt; memory.as_str(), "out of memory");
    Ok(())
}
