//! Boxes: what every variable of a model has left, cut by literals and given back.
#![tactic(auto)]

mod bits;
mod cell;
mod cells;
mod flags;
mod hulls;
mod kept;
mod mark;
mod narrowed;
mod region;
mod start;
#[cfg(test)]
mod tests;
mod truth;

pub use cells::Cells;
pub use hulls::{Hulls, Point};
pub use kept::Kept;
pub use mark::Mark;
pub use narrowed::Narrowed;
pub use region::Region;
pub use start::Start;
pub use truth::Truth;
