// Why a table refuses.
use thiserror::Error;

/// The one refusal of a table.
#[derive(Error, Clone, Copy, Debug, PartialEq, Eq, Drop)]
pub enum TableFault {
    #[error("no memory")]
    NoMemory,
}
