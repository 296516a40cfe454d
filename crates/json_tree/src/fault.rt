// Why a call refuses.
ghost use Rattle.json_tree.specs.declared.fault.TreeFault.TheVariants.{NoMemory};
ghost use Rattle.std.specs.Prelude.{◌≡◌};

use std::alloc::{AllocError, AllocFailed};
use thiserror::Error;

/// Why a call on values refuses.
#[derive(Error, Clone, Copy, Debug, PartialEq, Eq, Drop)]
pub enum TreeFault {
    /// The exact result is no number of the stated range.
    #[error("number out of range")]
    NumberRange,
    /// A list or an object is no id.
    #[error("id of the wrong kind")]
    BadIdKind,
    /// The empty text is no id.
    #[error("id is an empty text")]
    EmptyId,
    /// Want of memory.
    #[error("no memory")]
    NoMemory,
}

impl From<AllocError> for TreeFault {
    ghost from_gives = { λ _ e. e ≡ NoMemory };

    fn from(_refused: AllocError) -> TreeFault {
        TreeFault::NoMemory
    }
}

impl<T: Drop> From<AllocFailed<T>> for TreeFault {
    ghost from_gives = { λ _ e. e ≡ NoMemory };

    fn from(_refused: AllocFailed<T>) -> TreeFault {
        TreeFault::NoMemory
    }
}
