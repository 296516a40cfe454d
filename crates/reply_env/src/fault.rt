// The one refusal of this crate's calls.
ghost use Rattle.reply_env.specs.declared.fault.ReplyFault.TheVariants.{NoMemory};
ghost use Rattle.std.specs.Prelude.{◌≡◌};

use json_text::TextFault;
use json_tree::TreeFault;
use std::alloc::{AllocError, AllocFailed};
use thiserror::Error;

/// Why a reply isn't made or printed.
#[derive(Error, Clone, Copy, Debug, PartialEq, Eq, Drop)]
pub enum ReplyFault {
    #[error("no memory")]
    NoMemory,
}

impl From<AllocError> for ReplyFault {
    ghost from_gives = { λ _ e. e ≡ NoMemory };

    fn from(_refused: AllocError) -> ReplyFault {
        ReplyFault::NoMemory
    }
}

impl<T: Drop> From<AllocFailed<T>> for ReplyFault {
    ghost from_gives = { λ _ e. e ≡ NoMemory };

    fn from(_refused: AllocFailed<T>) -> ReplyFault {
        ReplyFault::NoMemory
    }
}
