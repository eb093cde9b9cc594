use thiserror::Error;

/// Why a file was not read to its end.
#[derive(Clone, Copy, Debug, PartialEq, Eq, Drop, Error)]
pub enum ReadError {
    #[error("read fault")]
    Fault,
    #[error("no memory")]
    Memory,
}
