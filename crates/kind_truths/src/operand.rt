//! Operands of disjunctions.
ghost use Rattle.std.specs.Prelude.{◌≡◌, ◌++◌, true, false, not, IfOk, OnOk};
ghost use Rattle.kind_truths.specs.Operand.{is_certain, may_fall, operands_of, signed, turned};

use dom_core::{Arg, Interval};
use std::alloc::{AllocError, Global};

/// An argument of a disjunction, as it stands or negated. A value of 1 or more is true, one of 0 or less is false.
#[derive(Clone, Copy, Debug, PartialEq, Eq)]
pub struct Operand {
    pub arg: Arg,
    pub negated: bool,
}

/// The operands of a clause.
pub fn operands_of(alloc: Global, ps: &[Arg], ns: &[Arg]) -> Result<Vec<Operand>, AllocError>
    ensures { IfOk result (λ v. v.items ≡ operands_of ps.now ns.now) }
{
    let mut operands = Vec::new(alloc);
    add_all(&mut operands, ps, false)?;
    add_all(&mut operands, ns, true)?;
    Ok(operands)
}

/// Adds the arguments, all as they stand or all negated.
fn add_all(operands: &mut Vec<Operand>, args: &[Arg], negated: bool) -> Result<(), AllocError>
    ensures { OnOk result (operands.new.items ≡ operands.old.items ++ signed negated args.now) }
{
    for arg in args {
        operands.push(Operand { arg: *arg, negated })?;
    }
    Ok(())
}

/// Whether each value of the interval makes the argument true, or, where it is negated, false.
pub fn is_certain(negated: bool, interval: Interval) -> bool
    ensures certain { result ≡ is_certain negated interval }
    ensures stands { result ≡ true → is_certain (not negated) interval ≡ false }
{
    if negated {
        interval.hi() <= 0
    } else {
        1 <= interval.lo()
    }
}

/// Whether the argument may fall by such a change, or, where it is negated, rise.
pub(crate) fn may_fall(negated: bool, change: Interval) -> bool
    ensures { result ≡ may_fall negated change }
{
    if negated {
        0 < change.hi()
    } else {
        change.lo() < 0
    }
}

/// The truth, or, where it is flipped, its opposite.
pub fn turned(flipped: bool, truth: bool) -> bool
    ensures { result ≡ turned flipped truth }
{
    if flipped { !truth } else { truth }
}
