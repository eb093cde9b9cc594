//! The laws.
ghost use Rattle.fzn_totality.specs.Totality.{HasKind, UnbuiltLaw, UndraftedLaw};

use fzn_signatures::one_row;

/// Where declarations are right, a constraint that is posted right and whose shape is built has a kind. The call does
/// nothing.
pub fn posted_has_kind()
    ensures { HasKind }
{}

/// The items of a text without a fault in its names, declarations, constraints and goal are in no way put together exactly
/// where they have a constraint that isn't built. The call does nothing.
pub fn unbuilt_is_undrafted()
    ensures undrafted { UndraftedLaw }
    ensures unbuilt { UnbuiltLaw }
{
    one_row();
}
