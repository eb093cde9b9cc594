//! The domains of variables: which values each free one may take, which declaration gives none, and the restrictions of the defined ones.
#![tactic(auto)]

mod fault;
mod free;
mod laws;
mod restrict;
#[cfg(test)]
mod tests;

pub use fault::DomainFault;
pub use free::free_domains;
pub use laws::{
    hulls_go_from_first_to_last, restrictions_are_met_by_allowed_values, restrictions_are_unique,
    values_are_the_allowed_ones,
};
pub use restrict::restrictions_of;
