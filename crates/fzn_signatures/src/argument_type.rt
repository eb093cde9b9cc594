//! What an argument of a constraint is.

/// What stands at a place of a constraint's arguments.
#[derive(Clone, Copy, Debug, PartialEq, Eq, Drop)]
pub enum ArgumentType {
    /// An integer that is no variable.
    ConstantInteger,
    /// A set of integers.
    Set,
    /// An array of integers that are no variables.
    ConstantIntegerArray,
    /// An array of truth values that are no variables.
    ConstantBooleanArray,
    /// An integer variable, or an integer.
    Integer,
    /// A Boolean variable, or a truth value.
    Boolean,
    /// An array of integer variables and integers.
    IntegerArray,
    /// An array of Boolean variables and truth values.
    BooleanArray,
}
