//! Why a call moved no byte.
use thiserror::Error;

/// Why a source or a sink moved no byte.
#[derive(Clone, Copy, Debug, PartialEq, Eq, Error)]
pub enum IoFault {
    /// The call failed, and was counted as a fault. A later call may succeed.
    #[error("a read or a write failed")]
    Failed,
    /// Nothing is left to read, or nothing more is taken.
    #[error("the end was reached")]
    Ended,
}

/// Memory was wanted and there was none.
#[derive(Clone, Copy, Debug, PartialEq, Eq, Error)]
#[error("out of memory")]
pub struct NoMemory;
