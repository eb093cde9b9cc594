//! Views in which two of a sum's variables move.
ghost use Rattle.std.specs.Prelude.{◌≡◌, ◌≤◌, ◌<◌, ◌-ℤ◌, pos};
ghost use Rattle.dom_core.specs.Ends.{only};
ghost use Rattle.bench_linear.specs.Digits.{IsDigitSum, IsDigitView};

use crate::digits::digit_sum;
use crate::job::Size;
use dom_core::{Interval, VarId, View};
use kind_law::Kind;
use kind_linear::Linear;
use std::alloc::{AllocError, Global};

/// How many of so many views keep the sum. In each two variables move from one digit to another, and all others rest.
#[tactic(auto, using(crate::proofs::DigitLaws::all_rest))]
pub(crate) fn count_kept(alloc: Global, size: Size, views: u32) -> Result<u64, AllocError> {
    let width = size.terms();
    let sum = digit_sum(alloc, width, size.bound())?;
    let mut view = View::for_vars(alloc, width as usize)?;
    let mut kept: u64 = 0;
    for number in 0..views {
        let first = number % width;
        let second = (number % width * 7 + 3) % width;
        set(&mut view, width, first, number % 10, number / 10 % 10);
        set(
            &mut view,
            width,
            second,
            number / 100 % 10,
            number / 1000 % 10,
        );
        if is_kept(&sum, &view, width) {
            kept = kept.saturating_add(1);
        }
        set(&mut view, width, first, 0, 0);
        set(&mut view, width, second, 0, 0);
    }
    Ok(kept)
}

/// Moves the variable from the one digit to the other.
fn set(view: &mut View, width: u32, at: u32, before: u32, after: u32)
    requires at { at < width }
    requires before { before ≤ 9 }
    requires after { after ≤ 9 }
    requires view { IsDigitView width view.old }
    ensures { IsDigitView width view.new }
{
    view.set(VarId(at), alone(before), alone(after), step(before, after));
}

/// The digit alone.
fn alone(digit: u32) -> Interval
    ensures { result ≡ only (pos digit) }
{
    Interval::new(digit as i128, digit as i128)
}

/// The step from the one digit to the other.
fn step(before: u32, after: u32) -> Interval
    ensures { result ≡ only (pos after -ℤ pos before) }
{
    let change = after as i128 - before as i128;
    Interval::new(change, change)
}

/// Whether the view keeps the sum.
#[tactic(auto, using(crate::proofs::DigitLaws::befores_fit, crate::proofs::DigitLaws::afters_fit, crate::proofs::DigitLaws::changes_true))]
fn is_kept(sum: &Linear, view: &View, width: u32) -> bool
    requires sum { IsDigitSum width sum.now }
    requires view { IsDigitView width view.now }
{
    sum.keeps(view)
}
