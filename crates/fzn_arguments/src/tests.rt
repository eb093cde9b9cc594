//! Arguments of short texts.

ghost use Rattle.std.specs.Prelude.{◌≤◌};
ghost use Rattle.fzn_arguments.specs.Numbers.{AreNumbers};
ghost use Rattle.fzn_limits.specs.Sizes.{variables_in, limit};

use crate::{arg_of, args_of, numbers_of, one_argument, scalar_arg, variable_named};
use dom_core::{Arg, VarId};
use dom_definers::Form;
use fzn_lex::lex;
use fzn_limits::count_items;
use fzn_symbols::{Scope, scope_of};
use fzn_syntax::{Basic, Expression, Items, parse};
use fzn_values::Constants;
use std::alloc::Global;
use std::process::Abort;
use std::test::Fail;

fn items(alloc: Global, text: &str) -> Result<Items, Fail> {
    let tokens = lex(alloc, text.as_bytes())?;
    Ok(parse(alloc, text.as_bytes(), tokens.as_slice())?)
}

const DECLARED: &str = "int: n = m;
int: m = 3;
bool: t = s;
bool: s = true;
var bool: a;
var 1..9: x;
array [1..3] of var int: xs = [x,n,x];
var {1,5}: y;
var float: f;
array [1..0] of var bool: none = [];
var bool: b;
constraint p([4,n,x,y,true,false,t,a,b,f,xs,1..2],xs,none,[a,false,t],[a,x],n,y,[n]);
solve satisfy;
";

const ENTRIES: [(Option<Arg>, Option<Arg>); 12] = [
    (None, Some(Arg::Const(4))),
    (None, Some(Arg::Const(3))),
    (None, Some(Arg::Var(VarId(1)))),
    (None, Some(Arg::Var(VarId(2)))),
    (Some(Arg::Const(1)), None),
    (Some(Arg::Const(0)), None),
    (Some(Arg::Const(1)), None),
    (Some(Arg::Var(VarId(0))), None),
    (Some(Arg::Var(VarId(4))), None),
    (None, None),
    (None, None),
    (None, None),
];

fn tells_entries<R: Abort>(
    rt: &R,
    values: &Constants<'_>,
    numbers: &[u32],
    basics: &[Basic],
) -> Result<(), Fail>
    requires { AreNumbers values.now numbers.now }
{
    assert_eq!(rt; basics.len(), 12);
    for (basic, (truth, integer)) in basics.iter().zip(ENTRIES) {
        assert!(rt;
            arg_of(values, numbers, Form::Bool, basic) == truth,
            "a truth"
        );
        assert!(rt;
            arg_of(values, numbers, Form::Int, basic) == integer,
            "an integer"
        );
    }
    Ok(())
}

const NONE: Option<&[Arg]> = None;

// For each form what each argument stands for, as a list and as no list.
const ARGUMENTS: [(Option<&[Arg]>, Option<&[Arg]>, Option<Arg>); 7] = [
    (
        NONE,
        Some(&[Arg::Var(VarId(1)), Arg::Const(3), Arg::Var(VarId(1))]),
        None,
    ),
    (Some(&[]), Some(&[]), None),
    (
        Some(&[Arg::Var(VarId(0)), Arg::Const(0), Arg::Const(1)]),
        NONE,
        None,
    ),
    (NONE, NONE, None),
    (NONE, NONE, Some(Arg::Const(3))),
    (NONE, NONE, Some(Arg::Var(VarId(2)))),
    (NONE, Some(&[Arg::Const(3)]), None),
];

fn tells_lists<R: Abort>(
    rt: &R,
    alloc: Global,
    values: &Constants<'_>,
    numbers: &[u32],
    arguments: &[Expression],
) -> Result<(), Fail>
    requires { AreNumbers values.now numbers.now }
{
    assert_eq!(rt; arguments.len(), 8);
    for (argument, (truths, integers, scalar)) in arguments.iter().skip(1).zip(ARGUMENTS) {
        let found = args_of(alloc, values, numbers, Form::Bool, argument)?;
        assert!(rt;
            found.as_ref().map(|args| args.as_slice()) == truths,
            "its truths"
        );
        let found = args_of(alloc, values, numbers, Form::Int, argument)?;
        assert!(rt;
            found.as_ref().map(|args| args.as_slice()) == integers,
            "its integers"
        );
        let one = scalar_arg(values, numbers, Form::Int, argument);
        assert!(rt; one == scalar, "no list");
    }
    Ok(())
}

fn tells<R: Abort>(
    rt: &R,
    alloc: Global,
    scope: &Scope<'_>,
    arguments: &[Expression],
) -> Result<(), Fail>
    requires { variables_in scope.now ≤ limit }
{
    let values = Constants::new(alloc, scope)?;
    let numbers = numbers_of(alloc, scope.declarations())?;
    assert!(rt;
        numbers.as_slice() == [0, 0, 0, 0, 0, 1, 2, 2, 3, 4, 4].as_slice(),
        "the numbers"
    );
    if let Some(Expression::List(basics)) = arguments.first() {
        tells_entries(rt, &values, numbers.as_slice(), basics.as_slice())?;
    }
    tells_lists(rt, alloc, &values, numbers.as_slice(), arguments)
}

#[test]
fn arguments_stand_for_constants_and_variables(rt: HostRuntime) -> Result<(), Fail> {
    one_argument();
    let items = items(rt.alloc(), DECLARED)?;
    if count_items(&items).is_err() {
        return Err("too many variables".into());
    }
    let scope = scope_of(rt.alloc(), &items)?;
    for constraint in items.constraints.as_slice() {
        tells(&rt, rt.alloc(), &scope, constraint.arguments.as_slice())?;
    }
    Ok(())
}
