//! Arguments of constraints: variables and constants.
ghost use Rattle.std.specs.Prelude.{◌≡◌, ◌<◌, length, pos};
ghost use Rattle.dom_core.specs.Ends.{only};
ghost use Rattle.kind_law.specs.Argument.{ArgHas, arg_movement, arg_span, constant_span, var_of};

use dom_core::{Arg, Interval, Intervals, Movement, VarId, View};

/// What intervals are read for: values, or changes, where a constant counts as 0.
#[derive(Clone, Copy, Debug, PartialEq, Eq)]
pub enum Reading {
    Values,
    Changes,
}

/// The interval of an argument.
pub fn span<I: Intervals>(arg: Arg, reading: Reading, intervals: &I) -> Interval
    requires below { ArgHas (λ u. u.0 < I.width intervals.now) arg }
    requires ready { ArgHas (λ u. I.ready intervals.now u.0) arg }
    ensures { result ≡ arg_span reading (I.spans intervals.now) arg }
{
    match arg {
        Arg::Var(var) => intervals.interval(var),
        Arg::Const(value) => constant(reading, value),
    }
}

/// The interval of a constant.
fn constant(reading: Reading, value: i64) -> Interval
    ensures { result ≡ constant_span reading value }
{
    match reading {
        Reading::Values => Interval::new(value as i128, value as i128),
        Reading::Changes => Interval::new(0, 0),
    }
}

/// The argument's variable, or the first one for a constant.
pub fn var_of(arg: Arg) -> VarId
    ensures { result ≡ var_of arg }
{
    match arg {
        Arg::Var(var) => var,
        Arg::Const(_) => VarId(0),
    }
}

/// The movement of an argument.
pub fn movement_of(arg: Arg, view: &View) -> Movement
    requires { ArgHas (λ u. u.0 < length view.now) arg }
    ensures { result ≡ arg_movement view.now arg }
{
    match arg {
        Arg::Var(var) => Movement {
            before: view.before(var),
            after: view.after(var),
            change: view.change(var),
        },
        Arg::Const(value) => constant_movement(value),
    }
}

/// The movement of a constant.
fn constant_movement(value: i64) -> Movement
    ensures { result ≡ record { before = only value; after = only value; change = only (pos 0) } }
{
    let own = Interval::new(value as i128, value as i128);
    Movement {
        before: own,
        after: own,
        change: Interval::new(0, 0),
    }
}
