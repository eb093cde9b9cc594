//! That what was put together has one outcome.
ghost use Rattle.dom_model.specs.Finished.{HasOneOutcome};

use digraph::ordered_is_acyclic;

/// A law, which a call makes known: what was put together has one outcome at most, a model or its first fault, want of memory aside.
pub fn drafts_have_one_outcome()
    ensures { HasOneOutcome }
{
    ordered_is_acyclic();
}
