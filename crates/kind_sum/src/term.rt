//! Terms of a sum.
ghost use Rattle.std.specs.Prelude.{◌≡◌, IfOk, length};
ghost use Rattle.kind_sum.specs.Sum.{terms_of};
ghost use Rattle.kind_sum.specs.Place.{is_unit};

use dom_core::Arg;
use std::alloc::{AllocError, Global};

/// A variable or a constant, with its coefficient.
#[derive(Clone, Copy, Debug, PartialEq, Eq)]
pub struct Term {
    pub coef: i64,
    pub arg: Arg,
}

/// The terms of coefficients and arguments, pair by pair.
pub(crate) fn pair_up(alloc: Global, coefs: &[i64], args: &[Arg]) -> Result<Vec<Term>, AllocError>
    requires { length coefs.now ≡ length args.now }
    ensures { IfOk result (λ v. v.items ≡ terms_of coefs.now args.now) }
{
    let mut terms = Vec::with_capacity(alloc, coefs.len())?;
    for i in 0..coefs.len() {
        let term = Term {
            coef: coefs[i],
            arg: args[i],
        };
        terms.push(term)?;
    }
    Ok(terms)
}

/// Whether the coefficient is 1 or -1.
pub(crate) fn is_unit(coef: i64) -> bool
    ensures { result ≡ is_unit coef }
{
    coef == 1 || coef == -1
}
