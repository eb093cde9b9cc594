//! The restrictions of defined variables to what their declarations allow.
ghost use Rattle.std.specs.Prelude.{◌≡◌, ◌≤◌, length, IfOk, OnErr, OnOk};
ghost use Rattle.dom_domains.specs.Allowed.{rising};
ghost use Rattle.dom_domains.specs.Restrictions.{AddsRestriction, AddsRestrictions, BeginsWith, IsSortedSome, integer_set, restricting_set, set_of};

use any_kind::AnyKind;
use dom_core::{Arg, Set, Values, VarId};
use dom_definers::{Declared, Form, Variable};
use kind_arith::InSet;
use std::alloc::{AllocError, Global};

/// Adds for each defined variable with a declared domain, in order, the constraint that restricts it to that.
pub fn restrictions_of(
    alloc: Global,
    variables: &[Variable],
    definers: &[Option<usize>],
    constraints: &mut Vec<AnyKind>,
) -> Result<(), AllocError>
    requires few { length variables.now ≤ 4294967295 }
    requires whole { length definers.now ≡ length variables.now }
    ensures added { OnOk result (AddsRestrictions variables.now definers.now
        constraints.old.items constraints.new.items) }
    ensures front { BeginsWith constraints.old.items constraints.new.items }
{
    for (number, variable) in variables.iter().enumerate() {
        let var = VarId(number as u32);
        let set = restricting_set(alloc, variable, definers[number])?;
        restrict(alloc, var, set, constraints)?;
    }
    Ok(())
}

/// Adds the restriction of the variable to the set, where there is one.
fn restrict(
    alloc: Global,
    var: VarId,
    set: Option<Set>,
    constraints: &mut Vec<AnyKind>,
) -> Result<(), AllocError>
    requires { IsSortedSome set }
    ensures added { OnOk result (AddsRestriction var.0 set constraints.old.items constraints.new.items) }
    ensures err { OnErr result (constraints.new.items ≡ constraints.old.items) }
{
    match set {
        None => Ok(()),
        Some(set) => {
            let restriction = InSet::new(alloc, Arg::Var(var), &set)?;
            constraints.push(AnyKind::InSet(restriction))?;
            Ok(())
        }
    }
}

/// The set to which a variable with this definer is restricted; a free one needs none.
fn restricting_set(
    alloc: Global,
    variable: &Variable,
    definer: Option<usize>,
) -> Result<Option<Set>, AllocError>
    ensures set { IfOk result (λ s. s ≡ restricting_set variable.now definer) }
    ensures sorted { IfOk result IsSortedSome }
{
    match definer {
        None => Ok(None),
        Some(_) => set_of(alloc, variable),
    }
}

/// The values that the declaration allows, as a set; none where it allows every integer.
fn set_of(alloc: Global, variable: &Variable) -> Result<Option<Set>, AllocError>
    ensures set { IfOk result (λ s. s ≡ set_of variable.now) }
    ensures sorted { IfOk result IsSortedSome }
{
    match variable.form {
        Form::Bool => Ok(Some(Set::Range { lo: 0, hi: 1 })),
        Form::Int => integer_set(alloc, &variable.declared),
    }
}

fn integer_set(alloc: Global, declared: &Declared) -> Result<Option<Set>, AllocError>
    ensures set { IfOk result (λ s. s ≡ integer_set declared.now) }
    ensures sorted { IfOk result IsSortedSome }
{
    match declared {
        Declared::Any => Ok(None),
        Declared::Range { lo, hi } => Ok(Some(Set::Range { lo: *lo, hi: *hi })),
        Declared::Values(values) => {
            let sorted = rising(alloc, values.as_slice())?;
            Ok(Some(Set::Values(Values::from_vec(sorted))))
        }
    }
}

/// The distinct values, rising.
fn rising(alloc: Global, values: &[i64]) -> Result<Vec<i64>, AllocError>
    ensures { IfOk result (λ v. v.items ≡ rising values.now) }
{
    let mut sorted = values.to_vec(alloc)?;
    sorted.sort_unstable();
    sorted.dedup();
    Ok(sorted)
}
