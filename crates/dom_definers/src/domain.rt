//! The domain of a declaration.
ghost use Rattle.dom_definers.specs.Domains.{AreSmallEnds, GivesDomain, IsDomainOf, IsIntegerDomain};

use crate::form::{Declared, Form};
use crate::variable::Variable;
use dom_core::{Domain, DomainError};
use std::alloc::Global;

/// The values that a declaration allows, as a domain. There is none where it allows every integer.
pub fn domain_of(alloc: Global, variable: &Variable) -> Result<Option<Domain>, DomainError>
    requires { AreSmallEnds variable.now.declared }
    ensures { GivesDomain (IsDomainOf variable.now) result }
{
    match variable.form {
        Form::Bool => Ok(Some(Domain::from_range(0, 1)?)),
        Form::Int => integers(alloc, &variable.declared),
    }
}

fn integers(alloc: Global, declared: &Declared) -> Result<Option<Domain>, DomainError>
    requires { AreSmallEnds declared.now }
    ensures { GivesDomain (IsIntegerDomain declared.now) result }
{
    match declared {
        Declared::Any => Ok(None),
        Declared::Range { lo, hi } => Ok(Some(Domain::from_range(*lo, *hi)?)),
        Declared::Values(values) => Ok(Some(Domain::from_values(alloc, values.as_slice())?)),
    }
}
