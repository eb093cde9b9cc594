//! The variables of terms.
ghost use Rattle.std.specs.Prelude.{◌≡◌, ◌<◌, IfOk, length};
ghost use Rattle.kind_law.specs.Argument.{is_listed};
ghost use Rattle.kind_parts.specs.Vars.{gathered};
ghost use Rattle.kind_sum.specs.Sum.{vars_of};
ghost use Rattle.kind_sum.specs.Place.{is_alone, others_at};

use crate::term::Term;
use dom_core::{Arg, VarId};
use kind_parts::{DistinctVars, is_on};
use std::alloc::{AllocError, Global};

/// The variables of the terms, each once, in the order in which they come first.
pub fn term_vars(alloc: Global, terms: &[Term]) -> Result<DistinctVars, AllocError>
    ensures { IfOk result (λ d. d ≡ gathered (vars_of terms.now)) }
{
    let mut vars = DistinctVars::new(alloc);
    for term in terms {
        vars.add(term.arg)?;
    }
    Ok(vars)
}

/// The terms but for the one at the place.
pub fn terms_but(alloc: Global, terms: &[Term], place: usize) -> Result<Vec<Term>, AllocError>
    requires { place < length terms.now }
    ensures { IfOk result (λ v. v.items ≡ others_at terms.now place) }
{
    let mut others = Vec::new(alloc);
    others.extend_from_slice(&terms[..place])?;
    others.extend_from_slice(&terms[place + 1..])?;
    Ok(others)
}

/// Whether the argument is a variable that no term but the one at the place has.
pub fn is_alone(arg: Arg, terms: &[Term], place: usize) -> bool
    requires { place < length terms.now }
    ensures { result ≡ is_alone arg (others_at terms.now place) }
{
    match arg {
        Arg::Const(_) => false,
        Arg::Var(var) => !is_read(var, &terms[..place]) && !is_read(var, &terms[place + 1..]),
    }
}

/// Whether a term has the variable.
fn is_read(var: VarId, terms: &[Term]) -> bool
    ensures { result ≡ is_listed var (vars_of terms.now) }
{
    for term in terms {
        if is_on(term.arg, var) {
            return true;
        }
    }
    false
}
