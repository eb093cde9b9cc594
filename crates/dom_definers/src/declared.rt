//! The interval of a declaration.
ghost use Rattle.std.specs.Prelude.{◌≡◌};
ghost use Rattle.dom_core.specs.Ends.{only};
ghost use Rattle.dom_definers.specs.Variable.{declared_hull, integers_hull, range_hull, values_hull, widened};

use crate::form::{Declared, Form};
use crate::variable::Variable;
use dom_core::Interval;

/// The least to the greatest value that a declaration allows; none where it allows no value, or every integer.
pub fn declared_hull(variable: &Variable) -> Option<Interval>
    ensures { result ≡ declared_hull variable.now }
{
    match variable.form {
        Form::Bool => Some(Interval::new(0, 1)),
        Form::Int => integers_hull(&variable.declared),
    }
}

fn integers_hull(declared: &Declared) -> Option<Interval>
    ensures { result ≡ integers_hull declared.now }
{
    match declared {
        Declared::Any => None,
        Declared::Range { lo, hi } => range_hull(*lo, *hi),
        Declared::Values(values) => values_hull(values.as_slice()),
    }
}

fn range_hull(lo: i64, hi: i64) -> Option<Interval>
    ensures { result ≡ range_hull lo hi }
{
    if hi < lo {
        return None;
    }
    Some(Interval::new(lo as i128, hi as i128))
}

fn values_hull(values: &[i64]) -> Option<Interval>
    ensures { result ≡ values_hull values.now }
{
    match values {
        [] => None,
        [first, rest @ ..] => Some(widened(*first, rest)),
    }
}

/// The least interval over the value and the listed ones.
fn widened(first: i64, rest: &[i64]) -> Interval
    ensures { result ≡ widened (only first) rest.now }
{
    let mut hull = single(first);
    for value in rest {
        hull = hull.hull(single(*value));
    }
    hull
}

/// The interval of one value.
fn single(value: i64) -> Interval
    ensures { result ≡ only value }
{
    Interval::new(value as i128, value as i128)
}
