//! What follows for every kind from its laws, each a call that does nothing and whose contract is the fact.
ghost use Rattle.kind_law.specs.DefineLaws.{ChangeLaw, RestLaw, TrueLaw, changed_of};
ghost use Rattle.kind_law.specs.Inside.{AgreeLaw, AllFixedLaw, HoldsLaw, StaysLaw};

use crate::define::Define;
use crate::kind::Kind;

/// A kind looks at its own variables alone: boxes that agree there are refuted alike and imply ends alike.
pub fn looks_at_its_variables<K: Kind>(kind: &K)
    ensures { AgreeLaw (K.vars kind.now) (K.refuted kind.now) }
{}

/// Where all its variables are fixed, a kind refutes the box exactly where their values don't satisfy it.
pub fn fixed_variables_decide<K: Kind>(kind: &K)
    ensures { AllFixedLaw (K.vars kind.now) (K.refuted kind.now) (K.met kind.now) }
{}

/// A reason holds wherever its kind is satisfied.
pub fn reasons_hold<K: Kind>(kind: &K)
    ensures { HoldsLaw (K.vars kind.now) (K.refuted kind.now) (K.met kind.now) }
{}

/// Ends that were implied at once can be applied one after the other.
pub fn implied_ends_stay<K: Kind>(kind: &K)
    ensures { StaysLaw (K.vars kind.now) (K.refuted kind.now) }
{}

/// The change of an output lies between its ranges before and after, is 0 where no input moves, and holds every change
/// that the view allows.
pub fn changes_are_true<K: Define>(kind: &K)
    ensures between { TrueLaw (K.inputs kind.now) (K.ranged kind.now)
        (changed_of (K.inputs kind.now) (K.ranged kind.now) (K.own_change kind.now)) }
    ensures rest { RestLaw (K.inputs kind.now)
        (changed_of (K.inputs kind.now) (K.ranged kind.now) (K.own_change kind.now)) }
    ensures holds { ChangeLaw (K.inputs kind.now) (K.given kind.now)
        (changed_of (K.inputs kind.now) (K.ranged kind.now) (K.own_change kind.now)) }
{}
