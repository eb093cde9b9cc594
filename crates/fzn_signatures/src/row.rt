//! The table of constraints.
ghost use Rattle.std.specs.Prelude.{◌≡◌, ℕ, Some, map, slice_get, MatchOption};
ghost use Rattle.fzn_signatures.specs.Rows.{entry_of};
ghost use Rattle.fzn_signatures.specs.Table.{table, Entry, IsEntryOf, IsUnlisted};

use crate::argument_type::ArgumentType;
use crate::shape::{Comparison, Shape};
use dom_core::Relation;

/// A constraint's name, the types of its arguments in order and what it says of them.
pub struct Row {
    pub name: &'static [u8],
    pub arguments: &'static [ArgumentType],
    pub shape: Shape,
}

/// The constraint of this name.
pub fn row_of(name: &[u8]) -> Option<&'static Row>
    ensures { MatchOption result (IsUnlisted name.now) (λ r. IsEntryOf name.now (entry_of r.now)) }
{
    let rows = rows();
    match rows.binary_search_by(|row| row.name.cmp(&name)) {
        Ok(at) => Some(&rows[at]),
        Err(_) => None,
    }
}

/// No two constraints have one name.
pub fn one_row()
    ensures { (i j : ℕ) (e f : Entry) → slice_get table i ≡ Some e → slice_get table j ≡ Some f → e.name ≡ f.name → i ≡ j }
{}

fn rows() -> &'static [Row]
    ensures { map entry_of result.now ≡ table }
{
    &ROWS
}

// By the order of the names' bytes, so that a name is found by halves.
static ROWS: [Row; 44] = [
    Row {
        name: b"array_bool_and",
        arguments: &[ArgumentType::BooleanArray, ArgumentType::Boolean],
        shape: Shape::Conjunction,
    },
    Row {
        name: b"array_bool_element",
        arguments: &[
            ArgumentType::Integer,
            ArgumentType::ConstantBooleanArray,
            ArgumentType::Boolean,
        ],
        shape: Shape::Element,
    },
    Row {
        name: b"array_bool_or",
        arguments: &[ArgumentType::BooleanArray, ArgumentType::Boolean],
        shape: Shape::Disjunction,
    },
    Row {
        name: b"array_int_element",
        arguments: &[
            ArgumentType::Integer,
            ArgumentType::ConstantIntegerArray,
            ArgumentType::Integer,
        ],
        shape: Shape::Element,
    },
    Row {
        name: b"bool2int",
        arguments: &[ArgumentType::Boolean, ArgumentType::Integer],
        shape: Shape::Conversion,
    },
    Row {
        name: b"bool_and",
        arguments: &[
            ArgumentType::Boolean,
            ArgumentType::Boolean,
            ArgumentType::Boolean,
        ],
        shape: Shape::And,
    },
    Row {
        name: b"bool_clause",
        arguments: &[ArgumentType::BooleanArray, ArgumentType::BooleanArray],
        shape: Shape::Clause,
    },
    Row {
        name: b"bool_clause_reif",
        arguments: &[
            ArgumentType::BooleanArray,
            ArgumentType::BooleanArray,
            ArgumentType::Boolean,
        ],
        shape: Shape::ClauseReified,
    },
    Row {
        name: b"bool_eq",
        arguments: &[ArgumentType::Boolean, ArgumentType::Boolean],
        shape: Shape::Compared(Comparison::Equal),
    },
    Row {
        name: b"bool_eq_reif",
        arguments: &[
            ArgumentType::Boolean,
            ArgumentType::Boolean,
            ArgumentType::Boolean,
        ],
        shape: Shape::ComparedReified(Comparison::Equal),
    },
    Row {
        name: b"bool_le",
        arguments: &[ArgumentType::Boolean, ArgumentType::Boolean],
        shape: Shape::Compared(Comparison::AtMost),
    },
    Row {
        name: b"bool_le_reif",
        arguments: &[
            ArgumentType::Boolean,
            ArgumentType::Boolean,
            ArgumentType::Boolean,
        ],
        shape: Shape::ComparedReified(Comparison::AtMost),
    },
    Row {
        name: b"bool_lt",
        arguments: &[ArgumentType::Boolean, ArgumentType::Boolean],
        shape: Shape::Compared(Comparison::Below),
    },
    Row {
        name: b"bool_lt_reif",
        arguments: &[
            ArgumentType::Boolean,
            ArgumentType::Boolean,
            ArgumentType::Boolean,
        ],
        shape: Shape::ComparedReified(Comparison::Below),
    },
    Row {
        name: b"bool_not",
        arguments: &[ArgumentType::Boolean, ArgumentType::Boolean],
        shape: Shape::Negation,
    },
    Row {
        name: b"bool_or",
        arguments: &[
            ArgumentType::Boolean,
            ArgumentType::Boolean,
            ArgumentType::Boolean,
        ],
        shape: Shape::Or,
    },
    Row {
        name: b"bool_xor",
        arguments: &[
            ArgumentType::Boolean,
            ArgumentType::Boolean,
            ArgumentType::Boolean,
        ],
        shape: Shape::Xor,
    },
    Row {
        name: b"fzn_all_different_int",
        arguments: &[ArgumentType::IntegerArray],
        shape: Shape::AllDifferent,
    },
    Row {
        name: b"fzn_among",
        arguments: &[
            ArgumentType::Integer,
            ArgumentType::IntegerArray,
            ArgumentType::Set,
        ],
        shape: Shape::Among,
    },
    Row {
        name: b"fzn_at_least_int",
        arguments: &[
            ArgumentType::ConstantInteger,
            ArgumentType::IntegerArray,
            ArgumentType::ConstantInteger,
        ],
        shape: Shape::AtLeast,
    },
    Row {
        name: b"fzn_at_most_int",
        arguments: &[
            ArgumentType::ConstantInteger,
            ArgumentType::IntegerArray,
            ArgumentType::ConstantInteger,
        ],
        shape: Shape::AtMost,
    },
    Row {
        name: b"fzn_count_eq",
        arguments: &[
            ArgumentType::IntegerArray,
            ArgumentType::ConstantInteger,
            ArgumentType::Integer,
        ],
        shape: Shape::Count,
    },
    Row {
        name: b"fzn_global_cardinality",
        arguments: &[
            ArgumentType::IntegerArray,
            ArgumentType::ConstantIntegerArray,
            ArgumentType::IntegerArray,
        ],
        shape: Shape::Cardinality,
    },
    Row {
        name: b"int_abs",
        arguments: &[ArgumentType::Integer, ArgumentType::Integer],
        shape: Shape::AbsoluteValue,
    },
    Row {
        name: b"int_eq",
        arguments: &[ArgumentType::Integer, ArgumentType::Integer],
        shape: Shape::Compared(Comparison::Equal),
    },
    Row {
        name: b"int_eq_reif",
        arguments: &[
            ArgumentType::Integer,
            ArgumentType::Integer,
            ArgumentType::Boolean,
        ],
        shape: Shape::ComparedReified(Comparison::Equal),
    },
    Row {
        name: b"int_le",
        arguments: &[ArgumentType::Integer, ArgumentType::Integer],
        shape: Shape::Compared(Comparison::AtMost),
    },
    Row {
        name: b"int_le_reif",
        arguments: &[
            ArgumentType::Integer,
            ArgumentType::Integer,
            ArgumentType::Boolean,
        ],
        shape: Shape::ComparedReified(Comparison::AtMost),
    },
    Row {
        name: b"int_lin_eq",
        arguments: &[
            ArgumentType::ConstantIntegerArray,
            ArgumentType::IntegerArray,
            ArgumentType::ConstantInteger,
        ],
        shape: Shape::Linear(Relation::Equal),
    },
    Row {
        name: b"int_lin_eq_reif",
        arguments: &[
            ArgumentType::ConstantIntegerArray,
            ArgumentType::IntegerArray,
            ArgumentType::ConstantInteger,
            ArgumentType::Boolean,
        ],
        shape: Shape::LinearReified(Relation::Equal),
    },
    Row {
        name: b"int_lin_le",
        arguments: &[
            ArgumentType::ConstantIntegerArray,
            ArgumentType::IntegerArray,
            ArgumentType::ConstantInteger,
        ],
        shape: Shape::Linear(Relation::AtMost),
    },
    Row {
        name: b"int_lin_le_reif",
        arguments: &[
            ArgumentType::ConstantIntegerArray,
            ArgumentType::IntegerArray,
            ArgumentType::ConstantInteger,
            ArgumentType::Boolean,
        ],
        shape: Shape::LinearReified(Relation::AtMost),
    },
    Row {
        name: b"int_lin_ne",
        arguments: &[
            ArgumentType::ConstantIntegerArray,
            ArgumentType::IntegerArray,
            ArgumentType::ConstantInteger,
        ],
        shape: Shape::Linear(Relation::Differ),
    },
    Row {
        name: b"int_lin_ne_reif",
        arguments: &[
            ArgumentType::ConstantIntegerArray,
            ArgumentType::IntegerArray,
            ArgumentType::ConstantInteger,
            ArgumentType::Boolean,
        ],
        shape: Shape::LinearReified(Relation::Differ),
    },
    Row {
        name: b"int_lt",
        arguments: &[ArgumentType::Integer, ArgumentType::Integer],
        shape: Shape::Compared(Comparison::Below),
    },
    Row {
        name: b"int_lt_reif",
        arguments: &[
            ArgumentType::Integer,
            ArgumentType::Integer,
            ArgumentType::Boolean,
        ],
        shape: Shape::ComparedReified(Comparison::Below),
    },
    Row {
        name: b"int_max",
        arguments: &[
            ArgumentType::Integer,
            ArgumentType::Integer,
            ArgumentType::Integer,
        ],
        shape: Shape::Maximum,
    },
    Row {
        name: b"int_min",
        arguments: &[
            ArgumentType::Integer,
            ArgumentType::Integer,
            ArgumentType::Integer,
        ],
        shape: Shape::Minimum,
    },
    Row {
        name: b"int_ne",
        arguments: &[ArgumentType::Integer, ArgumentType::Integer],
        shape: Shape::Compared(Comparison::Differ),
    },
    Row {
        name: b"int_ne_reif",
        arguments: &[
            ArgumentType::Integer,
            ArgumentType::Integer,
            ArgumentType::Boolean,
        ],
        shape: Shape::ComparedReified(Comparison::Differ),
    },
    Row {
        name: b"int_plus",
        arguments: &[
            ArgumentType::Integer,
            ArgumentType::Integer,
            ArgumentType::Integer,
        ],
        shape: Shape::Sum,
    },
    Row {
        name: b"int_times",
        arguments: &[
            ArgumentType::Integer,
            ArgumentType::Integer,
            ArgumentType::Integer,
        ],
        shape: Shape::Product,
    },
    Row {
        name: b"set_in",
        arguments: &[ArgumentType::Integer, ArgumentType::Set],
        shape: Shape::Membership,
    },
    Row {
        name: b"set_in_reif",
        arguments: &[
            ArgumentType::Integer,
            ArgumentType::Set,
            ArgumentType::Boolean,
        ],
        shape: Shape::MembershipReified,
    },
];
