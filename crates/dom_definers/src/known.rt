//! That every hull is known.
ghost use Rattle.dom_definers.specs.Known.{EveryHullIsKnown};

/// Where each free variable is declared with a hull and no constraint is too wide, every variable has a hull. The call does nothing.
pub fn every_hull_is_known()
    ensures { EveryHullIsKnown }
{}
