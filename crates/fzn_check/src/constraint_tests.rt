//! Constraints of short texts.
use crate::{
    Fault, constraints_have_one_first_fault, first_constraint_fault, is_of_type, is_posted,
};
use fzn_lex::lex;
use fzn_signatures::ArgumentType;
use fzn_symbols::{Scope, scope_of};
use fzn_syntax::{Constraint, Items, parse};
use fzn_values::Constants;
use std::alloc::Global;
use std::process::Abort;
use std::test::Fail;

fn shared<T: Send + Sync>(_: &T) {}

const DECLARED: &str = "int: k = 3;
int: l = k;
bool: t = true;
set of int: s = {1,3};
array [1..2] of int: cs = ds;
array [1..2] of int: ds = [1,2];
array [1..2] of int: twice = [k,l];
array [1..2] of int: far = near;
array [1..2] of int: near = twice;
array [1..2] of int: es = cs;
array [1..2] of bool: bs = [true,t];
var 1..3: x;
var int: y;
var bool: b;
var bool: r;
array [1..2] of var int: xs = [x,3];
array [1..2] of var bool: ps = [b,t];
array [1..3] of var int: three = [x,y,1];
float: f = 1.0;
var set of 1..3: v;
";

fn items(alloc: Global, text: &str) -> Result<Items, Fail> {
    let tokens = lex(alloc, text.as_bytes())?;
    Ok(parse(alloc, text.as_bytes(), tokens.as_slice())?)
}

fn first(
    alloc: Global,
    scope: &Scope<'_>,
    constraints: &[Constraint],
) -> Result<Option<Fault>, Fail> {
    let values = Constants::new(alloc, scope)?;
    Ok(first_constraint_fault(alloc, &values, constraints)?)
}

// Whether it is of a float, and its byte behind the declarations.
fn placed(fault: Option<Fault>) -> Option<(bool, u64)> {
    let before = DECLARED.len() as u64;
    match fault {
        None => None,
        Some(Fault::FloatOrSet { at }) => Some((true, at.saturating_sub(before))),
        Some(Fault::IllTyped { at }) => Some((false, at.saturating_sub(before))),
    }
}

// The fault of constraints behind the declarations.
fn fault(alloc: Global, constraints: &str) -> Result<Option<(bool, u64)>, Fail> {
    let text = format!(in alloc; "{DECLARED}{constraints}solve satisfy;\n")?;
    let items = items(alloc, text.as_str())?;
    let scope = scope_of(alloc, &items)?;
    let found = first(alloc, &scope, items.constraints.as_slice())?;
    Ok(placed(found))
}

// One constraint of each name, and constraints at fault: whether it is a float or a set variable, and the byte of the name.
const CONSTRAINTS: [(&str, Option<(bool, u64)>); 77] = [
    ("array_bool_and([b,true],r)", None),
    ("array_bool_element(x,bs,b)", None),
    ("array_bool_or(ps,r)", None),
    ("array_int_element(x,cs,y)", None),
    ("bool2int(b,x)", None),
    ("bool_and(b,t,r)", None),
    ("bool_clause(ps,bs)", None),
    ("bool_clause_reif([],[b],r)", None),
    ("bool_eq(b,true)", None),
    ("bool_eq_reif(b,r,false)", None),
    ("bool_le(b,r)", None),
    ("bool_le_reif(b,r,t)", None),
    ("bool_lt(b,r)", None),
    ("bool_lt_reif(b,r,t)", None),
    ("bool_not(b,r)", None),
    ("bool_or(b,b,r)", None),
    ("bool_xor(b,t,r)", None),
    ("fzn_all_different_int(xs)", None),
    ("fzn_among(x,cs,{1,2})", None),
    ("fzn_at_least_int(k,xs,2)", None),
    ("fzn_at_most_int(1,[x,y],l)", None),
    ("fzn_count_eq(xs,k,y)", None),
    ("fzn_global_cardinality([x],cs,xs)", None),
    ("fzn_global_cardinality([x],[l,4],[y,x])", None),
    ("fzn_global_cardinality([x],es,xs)", None),
    ("int_abs(x,y)", None),
    ("int_eq(x,k)", None),
    ("int_eq_reif(x,3,r)", None),
    ("int_le(x,y)", None),
    ("int_le_reif(x,y,true)", None),
    ("int_lin_eq(cs,xs,3)", None),
    ("int_lin_eq_reif([1,k],xs,l,r)", None),
    ("int_lin_le(ds,[x,y],k)", None),
    ("int_lin_le_reif([],[],0,r)", None),
    ("int_lin_ne([k],[x],1)", None),
    ("int_lin_ne_reif(twice,cs,1,r)", None),
    ("int_lt(x,y)", None),
    ("int_lt_reif(1,2,r)", None),
    ("int_max(x,y,k)", None),
    ("int_min(x,y,k)", None),
    ("int_ne(x,y)", None),
    ("int_ne_reif(x,y,r)", None),
    ("int_plus(x,y,k)", None),
    ("int_times(x,y,k)", None),
    ("set_in(x,s)", None),
    ("set_in(x,1..3)", None),
    ("set_in_reif(x,{},r)", None),
    ("int_eq(x)", Some((false, 11))),
    ("int_eq(x,y,x)", Some((false, 11))),
    ("int_eq(x,b)", Some((false, 11))),
    ("int_eq(x,true)", Some((false, 11))),
    ("int_eq(x,xs)", Some((false, 11))),
    ("int_eq(x,[y])", Some((false, 11))),
    ("bool_eq(b,1)", Some((false, 11))),
    ("set_in(x,3)", Some((false, 11))),
    ("array_int_element(x,xs,y)", Some((false, 11))),
    ("array_int_element(x,[x,1],y)", Some((false, 11))),
    ("array_bool_element(x,ps,b)", Some((false, 11))),
    ("array_bool_or(xs,r)", Some((false, 11))),
    ("fzn_all_different_int(ps)", Some((false, 11))),
    ("fzn_count_eq(xs,x,y)", Some((false, 11))),
    ("int_lin_le(cs,three,1)", Some((false, 11))),
    ("int_lin_le([1],xs,1)", Some((false, 11))),
    ("int_lin_le_reif([1,2,3],xs,1,r)", Some((false, 11))),
    ("fzn_global_cardinality([x],[3,k],xs)", Some((false, 11))),
    ("fzn_global_cardinality([x],twice,xs)", Some((false, 11))),
    ("fzn_global_cardinality([x],near,xs)", Some((false, 11))),
    ("fzn_global_cardinality([x],far,xs)", Some((false, 11))),
    ("fzn_global_cardinality([x],cs,three)", Some((false, 11))),
    ("int_eq(x,1.5)", Some((true, 11))),
    ("int_eq(x,f)", Some((true, 11))),
    ("set_in(x,v)", Some((true, 11))),
    ("set_in(x,1..2.5)", Some((true, 11))),
    ("int_eq(1.5)", Some((true, 11))),
    ("fzn_all_different_int([x,f])", Some((true, 11))),
    (
        "int_eq(x,y);\nconstraint int_eq(x);\nconstraint int_eq(f,x)",
        Some((false, 35)),
    ),
    ("int_eq(f,x);\nconstraint int_eq(x)", Some((true, 11))),
];

#[test]
fn the_first_constraint_at_fault_is_told(rt: HostRuntime) -> Result<(), Fail> {
    constraints_have_one_first_fault();
    assert!(rt; fault(rt.alloc(), "")?.is_none(), "nothing");
    for (constraint, expected) in CONSTRAINTS {
        let text = format!(in rt.alloc(); "constraint {constraint};\n")?;
        assert!(rt;
            fault(rt.alloc(), text.as_str())? == expected,
            "{constraint}"
        );
    }
    Ok(())
}

// Constraints over one list of 20,000 covers and its names; the covers are different but for the
// last, where that is below 19,999.
fn long_text(alloc: Global, last: u32) -> Result<String, Fail> {
    let mut text = String::new(alloc);
    text.push_str("var int: x;\narray [1..20000] of int: a = [")?;
    for cover in 0..19_999 {
        let entry = format!(in alloc; "{cover},")?;
        text.push_str(entry.as_str())?;
    }
    let named = format!(in alloc; "{last}];\narray [1..20000] of int: b = c;\n")?;
    text.push_str(named.as_str())?;
    text.push_str("array [1..20000] of int: c = a;\n")?;
    for _ in 0..1_000 {
        text.push_str("constraint fzn_global_cardinality([x],a,b);\n")?;
        text.push_str("constraint fzn_global_cardinality([x],b,a);\n")?;
    }
    text.push_str("solve satisfy;\n")?;
    Ok(text)
}

fn is_fine(alloc: Global, text: &str) -> Result<bool, Fail> {
    let items = items(alloc, text)?;
    let scope = scope_of(alloc, &items)?;
    let found = first(alloc, &scope, items.constraints.as_slice())?;
    Ok(found.is_none())
}

#[test]
fn many_constraints_name_one_long_list(rt: HostRuntime) -> Result<(), Fail> {
    for (last, fine) in [(19_999, true), (0, false), (19_998, false)] {
        let text = long_text(rt.alloc(), last)?;
        assert!(rt; is_fine(rt.alloc(), text.as_str())? == fine, "{last}");
    }
    Ok(())
}

fn judges<R: Abort>(
    rt: &R,
    alloc: Global,
    scope: &Scope<'_>,
    constraints: &[Constraint],
) -> Result<(), Fail> {
    let values = Constants::new(alloc, scope)?;
    for (place, constraint) in constraints.iter().enumerate() {
        assert!(rt;
            is_posted(alloc, &values, constraint)? == (place == 0),
            "{place}"
        );
        for argument in constraint.arguments.as_slice().iter().take(1) {
            assert!(rt;
                is_of_type(scope, ArgumentType::Integer, argument),
                "an integer"
            );
            assert!(rt;
                !is_of_type(scope, ArgumentType::Boolean, argument),
                "no truth value"
            );
        }
    }
    Ok(())
}

#[test]
fn one_constraint_is_judged_alone(rt: HostRuntime) -> Result<(), Fail> {
    shared(&Fault::IllTyped { at: 1 });
    let text = "var int: x; constraint int_eq(x,1); constraint p(x); solve satisfy;";
    let items = items(rt.alloc(), text)?;
    let scope = scope_of(rt.alloc(), &items)?;
    judges(&rt, rt.alloc(), &scope, items.constraints.as_slice())
}
