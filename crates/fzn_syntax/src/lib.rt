//! The items of a FlatZinc text.
#![tactic(auto)]

mod annotation;
mod arguments;
mod balance;
mod bracket;
mod constraint;
mod declaration;
mod element;
mod error;
mod expression;
mod identifier;
mod items;
mod nesting;
mod number;
mod parsing;
mod predicate;
mod sequence;
mod sign;
mod solve;
mod turn;

pub use annotation::Annotation;
pub use constraint::Constraint;
pub use declaration::{
    Declaration, IndexRange, Parameter, ParameterArray, VariableArray, VariableDeclaration,
};
pub use element::{Element, ParameterType, VariableType};
pub use error::SyntaxError;
pub use expression::{Basic, Expression};
pub use identifier::Identifier;
pub use items::Items;
pub use number::{Bounds, Number};
pub use parsing::{parse, tokens_have_one_answer};
pub use predicate::Predicate;
pub use sequence::Sequence;
pub use solve::{Solve, SolveGoal};

#[cfg(test)]
mod tests;
