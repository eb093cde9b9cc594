//! A sum of variables whose values are digits.
ghost use Rattle.std.specs.Prelude.{◌≡◌, ◌≤◌, ◌<◌, ◌≤ℤ◌, pos, IfOk, unsigned_abs};
ghost use Rattle.bench_linear.specs.Digits.{AreDigits, IsDigitSum};

use dom_cells::Start;
use dom_core::{Arg, Domain, DomainError, Relation, VarId};
use kind_linear::Linear;
use std::alloc::{AllocError, Global};

/// How many terms a sum has at most.
pub(crate) const WIDTH: u32 = 1000;

/// A sum of so many variables, with at most this bound.
pub(crate) fn digit_sum(alloc: Global, width: u32, bound: i64) -> Result<Linear, AllocError>
    requires { width ≤ 1000 }
    ensures { IfOk result (IsDigitSum width) }
{
    let mut coefs = Vec::with_capacity(alloc, width as usize)?;
    let mut args = Vec::with_capacity(alloc, width as usize)?;
    for at in 0..width {
        coefs.push(coefficient(at))?;
        args.push(Arg::Var(VarId(at)))?;
    }
    let sum = Linear::new(
        alloc,
        coefs.as_slice(),
        args.as_slice(),
        Relation::AtMost,
        bound,
    )?;
    Ok(sum)
}

/// The coefficient of the term with this number: each size from 1 to 1,000 once, every other one negative.
fn coefficient(at: u32) -> i64
    ensures { unsigned_abs result ≤ 1000 }
{
    let size = (at % 1000 * 7 % 1000 + 1) as i64;
    if at % 2 == 0 { size } else { -size }
}

/// All digits, for each of so many variables.
pub(crate) fn digit_starts(alloc: Global, width: u32) -> Result<Vec<Start>, DomainError>
    ensures { IfOk result (λ v. AreDigits width v.items) }
{
    let mut starts = Vec::with_capacity(alloc, width as usize)?;
    while starts.len() < width as usize {
        let start = Start::Values(Domain::from_range(0, 9)?);
        if let Err(full) = starts.push(start) {
            return Err(AllocError::from(full).into());
        }
    }
    Ok(starts)
}

/// The digit at which the variable with this number is fixed in a round: the one that adds least to the sum, or, for
/// each seventh variable, the next one.
pub(crate) fn digit(at: u32, number: u32) -> i64
    requires at { at < 1000 }
    requires number { number < 1000 }
    ensures low { pos 0 ≤ℤ result }
    ensures high { result ≤ℤ pos 9 }
{
    let step = if (at + number) % 7 == 0 { 1 } else { 0 };
    if at % 2 == 0 { step } else { 9 - step }
}
