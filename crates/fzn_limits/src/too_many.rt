//! That there is too much of something.
ghost use Rattle.std.specs.Prelude.{◌≡◌};

use dom_limits::Counted;
use thiserror::Error;

/// There is too much of something.
#[derive(Clone, Copy, Debug, PartialEq, Eq, Drop, Error)]
#[error("too many {}: {count}", words_of(*.what))]
pub struct TooMany {
    pub what: Counted,
    pub count: u64,
}

fn words_of(what: Counted) -> &'static str {
    match what {
        Counted::Variables => "variables",
        Counted::Constraints => "constraints",
        Counted::ArrayEntries => "array entries",
        Counted::ArgumentEntries => "argument entries",
        Counted::Free => "free variables",
    }
}
