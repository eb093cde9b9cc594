use thiserror::Error;

/// A read or a write did not succeed.
#[derive(Clone, Copy, Debug, PartialEq, Eq, Drop, Error)]
#[error("the call failed")]
pub struct Failed;
