//! What a constraint says of its arguments.

use dom_core::Relation;

/// How a value stands to another.
#[derive(Clone, Copy, Debug, PartialEq, Eq, Drop)]
pub enum Comparison {
    Equal,
    Differ,
    AtMost,
    Below,
}

/// What a constraint says of its arguments. Of two that are alike but for the end, the reified one says whether the other holds.
#[derive(Clone, Copy, Debug, PartialEq, Eq, Drop)]
pub enum Shape {
    /// A sum of products of coefficients and values stands so to a number.
    Linear(Relation),
    LinearReified(Relation),
    /// A value stands so to another.
    Compared(Comparison),
    ComparedReified(Comparison),
    /// Two truth values differ.
    Negation,
    /// An integer is 1 for true and 0 for false.
    Conversion,
    /// The last is the sum of the others.
    Sum,
    /// One of the first array is true or one of the second is false.
    Clause,
    ClauseReified,
    /// The last says whether all of an array are true.
    Conjunction,
    /// The last says whether one of an array is true.
    Disjunction,
    /// The last says whether both others are true.
    And,
    /// The last says whether one of the others is true.
    Or,
    /// The last says whether the others differ.
    Xor,
    Product,
    Maximum,
    Minimum,
    AbsoluteValue,
    /// The last is the entry of an array at the place that the first gives, counted from 1.
    Element,
    /// A value lies in a set.
    Membership,
    MembershipReified,
    /// No two of an array are alike.
    AllDifferent,
    /// The last is the number of entries of an array that are a number.
    Count,
    /// The first is the number of entries of an array that lie in a set.
    Among,
    /// At most so many entries of an array are a number.
    AtMost,
    /// At least so many entries of an array are a number.
    AtLeast,
    /// Each entry of the last array is the number of entries of the first that are the number at its place in the second.
    Cardinality,
}
