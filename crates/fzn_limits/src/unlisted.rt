//! Constraints whose names are not in the table.
ghost use Rattle.std.specs.Prelude.{◌≡◌, ◌↔◌, IsTrue, MatchOption};
ghost use Rattle.fzn_limits.specs.Unlisted.{IsKnown, AreKnown, IsFirstUnknown};

use fzn_signatures::row_of;
use fzn_syntax::Constraint;

fn is_known(constraint: &Constraint) -> bool
    ensures { IsTrue result ↔ IsKnown constraint.now }
{
    row_of(constraint.name.name.as_bytes()).is_some()
}

/// The place in the text of the first constraint's name that is not in the table.
pub fn first_unknown_constraint(constraints: &[Constraint]) -> Option<u64>
    ensures { MatchOption result (AreKnown constraints.now) (IsFirstUnknown constraints.now) }
{
    for constraint in constraints {
        if !is_known(constraint) {
            return Some(constraint.name.at);
        }
    }
    None
}
