//! The traits of constraint kinds with their laws, and what follows from the laws for every kind.
#![tactic(auto)]

mod argument;
mod asked;
mod bounds;
mod change;
mod define;
mod derived;
mod ends;
mod function;
mod kind;
mod next;
mod probe;
mod propagate;
mod reason;
mod scratch;
mod side;
mod steps;
mod visit;
mod visited;

pub use argument::{Reading, movement_of, span, var_of};
pub use asked::Asked;
pub use bounds::explain_at;
pub use change::{are_still, change_by, difference_of};
pub use define::Define;
pub use derived::{
    changes_are_true, fixed_variables_decide, implied_ends_stay, looks_at_its_variables,
    reasons_hold,
};
pub use ends::{explain_end, failing, reach};
pub use function::{are_apart, are_same, is_function_kept};
pub use kind::Kind;
pub use next::{end_of_var, first_end, next_of};
pub use probe::Probe;
pub use propagate::Propagate;
pub use reason::{add_implied, reason_of};
pub use scratch::Scratch;
pub use side::Side;
pub use steps::{distance, end_by_steps, furthest};
pub use visit::visit_of;
pub use visited::Visited;
