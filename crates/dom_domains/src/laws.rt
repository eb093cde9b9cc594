//! Laws of allowed values, hulls and restrictions. The calls do nothing.
ghost use Rattle.dom_domains.specs.Laws.{AssignmentLaw, HullLaw, OneRestrictionLaw, RestrictionLaw, RestrictionsLaw, ValuesLaw};

/// The values of a variable are those that its declaration allows, where it doesn't allow every integer. An assignment is allowed where
/// each of its values is.
pub fn values_are_the_allowed_ones()
    ensures values { ValuesLaw }
    ensures each { AssignmentLaw }
{}

/// The hull of a declaration goes from the first value to the last, where there is one.
pub fn hulls_go_from_first_to_last()
    ensures { HullLaw }
{}

/// Restrictions are met exactly where each defined variable has an allowed value.
pub fn restrictions_are_met_by_allowed_values()
    ensures one { RestrictionLaw }
    ensures all { RestrictionsLaw }
{}

/// Variables and definers have one list of restrictions at most.
pub fn restrictions_are_unique()
    ensures { OneRestrictionLaw }
{}
