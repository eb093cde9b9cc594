//! The parts of constraints among their arguments.
ghost use Rattle.std.specs.Prelude.{◌≡◌, ◌↔◌, ℤ, List, length, IsTrue, MatchOption};
ghost use Rattle.dom_core.specs.declared.arg.Arg.{Arg};
ghost use Rattle.fzn_forms.specs.Made.{AreTwo, AreThree, AreLists, AreListsGiving, IsListGiving, AreWeighted, AreWeightedGiving};

use crate::argument::Argument;
use dom_core::Arg;

pub(crate) fn two(arguments: &[Argument]) -> Option<(Arg, Arg)>
    ensures { MatchOption result
        ((x y : Arg) → AreTwo arguments.now x y → ⊥)
        (λ p. AreTwo arguments.now p.0 p.1) }
{
    match arguments {
        [Argument::Scalar(x), Argument::Scalar(y)] => Some((*x, *y)),
        _ => None,
    }
}

pub(crate) fn three(arguments: &[Argument]) -> Option<(Arg, Arg, Arg)>
    ensures { MatchOption result
        ((x y z : Arg) → AreThree arguments.now x y z → ⊥)
        (λ p. AreThree arguments.now p.0 p.1 p.2) }
{
    match arguments {
        [
            Argument::Scalar(x),
            Argument::Scalar(y),
            Argument::Scalar(z),
        ] => Some((*x, *y, *z)),
        _ => None,
    }
}

pub(crate) fn lists(arguments: &[Argument]) -> Option<(&[Arg], &[Arg])>
    ensures { MatchOption result
        ((ps ns : List Arg) → AreLists arguments.now ps ns → ⊥)
        (λ p. AreLists arguments.now p.0.now p.1.now) }
{
    match arguments {
        [Argument::Array(ps), Argument::Array(ns)] => Some((ps.as_slice(), ns.as_slice())),
        _ => None,
    }
}

pub(crate) fn lists_giving(arguments: &[Argument]) -> Option<(&[Arg], &[Arg], Arg)>
    ensures { MatchOption result
        ((ps ns : List Arg) (r : Arg) → AreListsGiving arguments.now ps ns r → ⊥)
        (λ p. AreListsGiving arguments.now p.0.now p.1.now p.2) }
{
    match arguments {
        [
            Argument::Array(ps),
            Argument::Array(ns),
            Argument::Scalar(r),
        ] => { Some((ps.as_slice(), ns.as_slice(), *r)) }
        _ => None,
    }
}

pub(crate) fn list_giving(arguments: &[Argument]) -> Option<(&[Arg], Arg)>
    ensures { MatchOption result
        ((ps : List Arg) (r : Arg) → IsListGiving arguments.now ps r → ⊥)
        (λ p. IsListGiving arguments.now p.0.now p.1) }
{
    match arguments {
        [Argument::Array(ps), Argument::Scalar(r)] => Some((ps.as_slice(), *r)),
        _ => None,
    }
}

fn have_one_length(coefs: &[i64], args: &[Arg]) -> bool
    ensures { IsTrue result ↔ (length coefs.now ≡ length args.now) }
{
    coefs.len() == args.len()
}

pub(crate) fn weighted(arguments: &[Argument]) -> Option<(&[i64], &[Arg], i64)>
    ensures { MatchOption result
        ((cs : List ℤ) (xs : List Arg) (bound : ℤ) → AreWeighted arguments.now cs xs bound → ⊥)
        (λ p. AreWeighted arguments.now p.0.now p.1.now p.2) }
{
    match arguments {
        [
            Argument::Integers(coefs),
            Argument::Array(args),
            Argument::Integer(bound),
        ] => {
            let (coefs, args) = (coefs.as_slice(), args.as_slice());
            if have_one_length(coefs, args) {
                Some((coefs, args, *bound))
            } else {
                None
            }
        }
        _ => None,
    }
}

pub(crate) fn weighted_giving(arguments: &[Argument]) -> Option<(&[i64], &[Arg], i64, Arg)>
    ensures { MatchOption result
        ((cs : List ℤ) (xs : List Arg) (bound : ℤ) (r : Arg) → AreWeightedGiving arguments.now cs xs bound r → ⊥)
        (λ p. AreWeightedGiving arguments.now p.0.now p.1.now p.2 p.3) }
{
    match arguments {
        [
            Argument::Integers(coefs),
            Argument::Array(args),
            Argument::Integer(bound),
            Argument::Scalar(output),
        ] => {
            let (coefs, args) = (coefs.as_slice(), args.as_slice());
            if have_one_length(coefs, args) {
                Some((coefs, args, *bound, *output))
            } else {
                None
            }
        }
        _ => None,
    }
}
