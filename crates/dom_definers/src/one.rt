//! That definers and hulls are determined.
ghost use Rattle.dom_definers.specs.One.{DefinersAreOne, HullsAreOne};

/// A law, which a call makes known: constraints have one list of definers.
pub fn definers_are_one()
    ensures { DefinersAreOne }
{}

/// A law, which a call makes known: definitions in an order have one list of hulls.
pub fn hulls_are_one()
    ensures { HullsAreOne }
{}
