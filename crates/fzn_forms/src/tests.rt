//! The kinds of short texts.
ghost use Rattle.std.specs.Prelude.{◌≤◌};
ghost use Rattle.fzn_limits.specs.Sizes.{variables_in, limit};

use crate::{FormError, kind_of, one_kind};
use any_kind::AnyKind;
use dom_core::{Arg, Relation, VarId};
use fzn_arguments::numbers_of;
use fzn_lex::lex;
use fzn_limits::count_items;
use fzn_symbols::{Scope, scope_of};
use fzn_syntax::{Constraint, Items, parse};
use fzn_values::Constants;
use kind_law::Kind;
use kind_linear::{Linear, Term};
use std::alloc::Global;
use std::process::Abort;
use std::test::Fail;

fn shared<T: Send + Sync>(_: &T) {}

fn items(alloc: Global, text: &str) -> Result<Items, Fail> {
    let tokens = lex(alloc, text.as_bytes())?;
    Ok(parse(alloc, text.as_bytes(), tokens.as_slice())?)
}

const TEXT: &str = "var bool: a;
var bool: b;
var 0..9: x;
var 0..9: y;
var 0..9: z;
int: n = 5;
array [1..2] of int: cs = [2,3];
array [1..3] of var bool: ps = [a,true,b];
array [1..0] of var bool: none = [];
constraint int_lin_le(cs,[x,n],7);
constraint int_lt(x,y);
constraint int_ne(x,n);
constraint bool_eq(a,true);
constraint bool_not(a,b);
constraint bool2int(b,x);
constraint int_plus(x,y,x);
constraint int_lin_eq_reif([1,1],[x,x],4,a);
constraint bool_le_reif(b,a,false);
constraint bool_clause(none,ps);
constraint bool_clause_reif([b],none,a);
constraint array_bool_and(ps,a);
constraint array_bool_or([],a);
constraint bool_and(a,b,true);
constraint bool_or(a,a,b);
constraint bool_xor(a,false,b);
constraint int_times(x,y,z);
constraint int_lin_le([1],[x,y],3);
constraint int_lin_le([1],[a],3);
constraint int_lin_le([1],[x],y);
constraint bool_not(x,a);
constraint int_lt(x);
constraint unknown(x);
solve satisfy;
";

const A: VarId = VarId(0);

const B: VarId = VarId(1);

const X: VarId = VarId(2);

const Y: VarId = VarId(3);

// For each constraint its kind by name, and the variables.
const KINDS: [Option<(&str, &[VarId])>; 23] = [
    Some(("sum", &[X])),
    Some(("sum", &[X, Y])),
    Some(("sum", &[X])),
    Some(("sum", &[A])),
    Some(("sum", &[A, B])),
    Some(("sum", &[B, X])),
    Some(("sum", &[X, Y])),
    Some(("truth of a sum", &[X, A])),
    Some(("truth of a sum", &[B, A])),
    Some(("clause", &[A, B])),
    Some(("truth of a clause", &[B, A])),
    Some(("and", &[A, B])),
    Some(("or", &[A])),
    Some(("and", &[A, B])),
    Some(("or", &[A, B])),
    Some(("xor", &[A, B])),
    None,
    None,
    None,
    None,
    None,
    None,
    None,
];

const fn term(coef: i64, var: VarId) -> Term {
    Term {
        coef,
        arg: Arg::Var(var),
    }
}

const fn fixed(coef: i64, value: i64) -> Term {
    Term {
        coef,
        arg: Arg::Const(value),
    }
}

fn name_of(kind: &AnyKind) -> &'static str {
    match kind {
        AnyKind::Linear(_) => "sum",
        AnyKind::LinearOutput(_) => "equation",
        AnyKind::LinearReified(_) => "truth of a sum",
        AnyKind::InSet(_) => "restriction",
        AnyKind::BoolClause(_) => "clause",
        AnyKind::BoolClauseReified(_) => "truth of a clause",
        AnyKind::And(_) => "and",
        AnyKind::Or(_) => "or",
        AnyKind::Xor(_) => "xor",
    }
}

fn is_sum(linear: &Linear, terms: &[Term], relation: Relation, bound: i64) -> bool {
    linear.terms() == terms && linear.relation() == relation && linear.bound() == bound
}

// Whether the sum is that of the constraint at this place.
fn is_sum_at(place: usize, linear: &Linear) -> bool {
    match place {
        0 => is_sum(linear, &[term(2, X), fixed(3, 5)], Relation::AtMost, 7),
        1 => is_sum(linear, &[term(1, X), term(-1, Y)], Relation::AtMost, -1),
        2 => is_sum(linear, &[term(1, X), fixed(-1, 5)], Relation::Differ, 0),
        3 => is_sum(linear, &[term(1, A), fixed(-1, 1)], Relation::Equal, 0),
        4 => is_sum(linear, &[term(1, A), term(1, B)], Relation::Equal, 1),
        5 => is_sum(linear, &[term(1, B), term(-1, X)], Relation::Equal, 0),
        _ => {
            let terms = [term(1, X), term(1, Y), term(-1, X)];
            is_sum(linear, terms.as_slice(), Relation::Equal, 0)
        }
    }
}

fn tells<R: Abort>(
    rt: &R,
    alloc: Global,
    scope: &Scope<'_>,
    constraint: &Constraint,
    place: usize,
) -> Result<(), Fail>
    requires { variables_in scope.now ≤ limit }
{
    let values = Constants::new(alloc, scope)?;
    let numbers = numbers_of(alloc, scope.declarations())?;
    let wanted = KINDS.get(place).copied().flatten();
    match kind_of(alloc, &values, numbers.as_slice(), constraint) {
        Err(error) => {
            assert_eq!(rt; error, FormError::NotBuilt);
            assert!(rt; wanted.is_none(), "no kind at {place}");
        }
        Ok(kind) => {
            let (name, vars) = wanted.unwrap_or(("none", &[]));
            assert!(rt; name_of(&kind) == name, "its kind at {place}");
            assert!(rt; kind.vars() == vars, "its variables at {place}");
            if let AnyKind::Linear(linear) = &kind {
                assert!(rt; is_sum_at(place, linear), "its sum at {place}");
            }
        }
    }
    Ok(())
}

#[test]
fn constraints_have_kinds_by_their_names(rt: HostRuntime) -> Result<(), Fail> {
    one_kind();
    let items = items(rt.alloc(), TEXT)?;
    if count_items(&items).is_err() {
        return Err("too many variables".into());
    }
    let scope = scope_of(rt.alloc(), &items)?;
    assert_eq!(rt; items.constraints.len(), 23);
    for (place, constraint) in items.constraints.as_slice().iter().enumerate() {
        tells(&rt, rt.alloc(), &scope, constraint, place)?;
    }
    Ok(())
}

#[test]
fn errors_are_told_in_words(rt: HostRuntime) -> Result<(), Fail> {
    shared(&FormError::NotBuilt);
    let text = FormError::NotBuilt.to_string(rt.alloc())?;
    assert_eq!(rt; text.as_str(), "not built");
    let memory = FormError::Memory.to_string(rt.alloc())?;
    assert_eq!(rt; memory.as_str(), "out of memory");
    Ok(())
}
