// Why a request is refused.
ghost use Rattle.std.specs.Prelude.{◌≡◌, Some, MatchResult};
ghost use Rattle.cmd_grammar.specs.Answers.{Refuses};
ghost use Rattle.cmd_grammar.specs.declared.fault.CommandFault.{CommandFault};

use json_tree::Text;
use name_tables::Code;
use reply_env::{ErrorItem, ReplyFault};
use thiserror::Error;

/// Why no command is read.
#[derive(Error, Debug, Drop)]
pub enum CommandFault {
    /// The request is refused by this error.
    #[error("refused by {code:?}: {message:?}")]
    Refused { code: Code, message: Text },
    /// Want of memory.
    #[error("no memory")]
    NoMemory,
}

// The refusal by an error that was made, if memory was there for it.
pub(crate) fn refuse(made: Result<ErrorItem, ReplyFault>) -> CommandFault
    ensures { MatchResult made (λ error. Refuses (Some error) result) (λ _. result ≡ CommandFault.NoMemory) }
{
    match made {
        Ok(ErrorItem { code, message }) => CommandFault::Refused { code, message },
        Err(_) => CommandFault::NoMemory,
    }
}
