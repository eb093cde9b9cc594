//! The domains of free variables.
ghost use Rattle.std.specs.Prelude.{◌≡◌, ◌↔◌, ◌≤◌, ◌++◌, [], length, IfErr, IsTrue, OnOk};
ghost use Rattle.dom_definers.specs.Domains.{AreSmallEnds};
ghost use Rattle.dom_domains.specs.Allowed.{values_of};
ghost use Rattle.dom_domains.specs.Faults.{IsEmptyDeclared, IsFaultBy, IsOpen};
ghost use Rattle.dom_domains.specs.FreeDomains.{AreDomains, AreSmallVariables, GivesFreeDomain, GivesFreeDomains, HasNoFault, IsMemoryOr, with_free};

use crate::fault::DomainFault;
use dom_core::{Domain, DomainError, VarId};
use dom_definers::{Declared, Form, Variable, declared_hull, domain_of};
use std::alloc::Global;

/// The domain of each variable without a definer, in order, or what the first variable with a fault has.
pub fn free_domains(
    alloc: Global,
    variables: &[Variable],
    definers: &[Option<usize>],
) -> Result<Vec<Domain>, DomainFault>
    requires few { length variables.now ≤ 4294967295 }
    requires whole { length definers.now ≡ length variables.now }
    requires small { AreSmallVariables variables.now }
    ensures { GivesFreeDomains variables.now definers.now result }
{
    let mut domains = Vec::new(alloc);
    for (number, variable) in variables.iter().enumerate() {
        let var = VarId(number as u32);
        add_domain(alloc, variable, var, definers[number], &mut domains)?;
    }
    Ok(domains)
}

/// Adds the domain of the variable with this number where it is free. Of a defined one it is only asked whether any value is allowed.
fn add_domain(
    alloc: Global,
    variable: &Variable,
    var: VarId,
    definer: Option<usize>,
    domains: &mut Vec<Domain>,
) -> Result<(), DomainFault>
    requires { AreSmallEnds variable.now.declared }
    ensures none { OnOk result (HasNoFault definer variable.now var) }
    ensures added { OnOk result (domains.new.items ≡ domains.old.items
        ++ with_free definer (values_of variable.now) []) }
    ensures domain { OnOk result (AreDomains (with_free definer (values_of variable.now) [])) }
    ensures fault { IfErr result (IsMemoryOr (IsFaultBy definer variable.now var)) }
{
    match definer {
        None => domains.push(free_domain(alloc, variable, var)?)?,
        Some(_) => check_defined(variable, var)?,
    }
    Ok(())
}

/// The domain of the free variable with this number.
#[tactic(auto, using(crate::proofs::FreeLaws::free_domain, crate::proofs::FreeLaws::free_large))]
fn free_domain(alloc: Global, variable: &Variable, var: VarId) -> Result<Domain, DomainFault>
    requires { AreSmallEnds variable.now.declared }
    ensures { GivesFreeDomain variable.now var result }
{
    match domain_of(alloc, variable) {
        Ok(Some(domain)) => Ok(domain),
        Ok(None) => Err(DomainFault::Unbounded { var }),
        Err(DomainError::Empty) => Err(DomainFault::Empty { var }),
        Err(DomainError::TooLarge { count }) => Err(DomainFault::TooLarge { var, count }),
        Err(DomainError::Memory) => Err(DomainFault::Memory),
    }
}

/// Whether the defined variable with this number is allowed a value.
fn check_defined(variable: &Variable, var: VarId) -> Result<(), DomainFault>
    ensures none { OnOk result (IsEmptyDeclared variable.now → ⊥) }
    ensures fault { IfErr result (λ f. (f ≡ DomainFault.Empty var) × IsEmptyDeclared variable.now) }
{
    if allows_none(variable) {
        return Err(DomainFault::Empty { var });
    }
    Ok(())
}

#[tactic(auto, using(crate::proofs::FreeLaws::empty_declared, crate::proofs::FreeLaws::empty_hull))]
fn allows_none(variable: &Variable) -> bool
    ensures { IsTrue result ↔ IsEmptyDeclared variable.now }
{
    !is_open(variable) && declared_hull(variable).is_none()
}

fn is_open(variable: &Variable) -> bool
    ensures { IsTrue result ↔ IsOpen variable.now.form variable.now.declared }
{
    match variable.form {
        Form::Bool => false,
        Form::Int => is_any(&variable.declared),
    }
}

fn is_any(declared: &Declared) -> bool
    ensures { IsTrue result ↔ IsOpen Form.Int declared.now }
{
    match declared {
        Declared::Any => true,
        Declared::Range { .. } => false,
        Declared::Values(_) => false,
    }
}
