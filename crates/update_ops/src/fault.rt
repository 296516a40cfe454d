// Why an update is refused.
ghost use Rattle.std.specs.Prelude.{◌≡◌};
ghost use Rattle.update_ops.specs.declared.fault.UpdateFault.TheVariants as fault;

use doc_limits::Broken;
use json_tree::Text;
use std::alloc::{AllocError, AllocFailed};
use thiserror::Error;

/// Why a value is no update, or why an update of a document is refused.
#[derive(Error, Debug, Drop)]
pub enum UpdateFault {
    /// An operator outside the table.
    #[error("unknown operator {name:?}")]
    UnknownOperator { name: Text },
    /// A clause that isn't of the operator's form.
    #[error("bad operand of {operator:?} at {path:?}")]
    BadOperand { operator: Text, path: Text },
    /// Two paths of which one leads through the other.
    #[error("{first:?} and {second:?} overlap")]
    Overlap { first: Text, second: Text },
    /// A path to the id, or below it.
    #[error("the id isn't changeable")]
    TouchesId,
    /// A value of the wrong kind at the path.
    #[error("wrong kind at {path:?}")]
    WrongTarget { path: Text },
    /// A result that is no number.
    #[error("number out of range at {path:?}")]
    NumberRange { path: Text },
    /// The new document breaks a limit.
    #[error("broken limit {}", .0.limit)]
    Broken(Broken),
    /// Want of memory.
    #[error("no memory")]
    NoMemory,
}

impl<T: Drop> From<AllocFailed<T>> for UpdateFault {
    ghost from_gives = { λ _ e. e ≡ fault.NoMemory };

    fn from(_refused: AllocFailed<T>) -> UpdateFault {
        UpdateFault::NoMemory
    }
}

impl From<AllocError> for UpdateFault {
    ghost from_gives = { λ _ e. e ≡ fault.NoMemory };

    fn from(_refused: AllocError) -> UpdateFault {
        UpdateFault::NoMemory
    }
}
