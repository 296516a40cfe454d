// The update of a command.
ghost use Rattle.std.specs.Prelude.{◌≡◌, ◌≢◌, IfOk, option_map};
ghost use Rattle.json_tree.specs.View.{tree};
ghost use Rattle.update_ops.specs.Faults.{first_fault, updates_in};
ghost use Rattle.update_ops.specs.declared.fault.UpdateFault.{UpdateFault};
ghost use Rattle.cmd_grammar.specs.Refused.{update_error as error_of, update_refusal};
ghost use Rattle.cmd_grammar.specs.Parts.{updates_of};
ghost use Rattle.cmd_grammar.specs.Answers.{Passes};

use crate::fault::{CommandFault, refuse};
use crate::members::member;
use json_tree::Value;
use reply_env::{
    ErrorItem, ReplyFault, bad_update_operand, broken_limit, id_unchangeable, no_update_operator,
    number_out_of_range, update_conflict, wrong_update_target,
};
use std::alloc::Global;
use update_ops::{UpdateFault, Updates};

/// The error that tells an update's fault, of its reading or of its making.
pub fn update_error(alloc: Global, fault: UpdateFault) -> Result<ErrorItem, ReplyFault>
    ensures { fault ≢ UpdateFault.NoMemory → IfOk result (λ e. e ≡ error_of fault) }
{
    match fault {
        UpdateFault::UnknownOperator { name } => no_update_operator(alloc, name.as_str()),
        UpdateFault::BadOperand { operator, path } => {
            bad_update_operand(alloc, operator.as_str(), path.as_str())
        }
        UpdateFault::Overlap { first, second } => {
            update_conflict(alloc, first.as_str(), second.as_str())
        }
        UpdateFault::TouchesId => id_unchangeable(alloc),
        UpdateFault::WrongTarget { path } => wrong_update_target(alloc, path.as_str()),
        UpdateFault::NumberRange { path } => number_out_of_range(alloc, path.as_str()),
        UpdateFault::Broken(broken) => {
            broken_limit(alloc, broken.limit, broken.bound, broken.found)
        }
        UpdateFault::NoMemory => Err(ReplyFault::NoMemory),
    }
}

// The update that a value spells.
fn read_value(alloc: Global, value: &Value) -> Result<Updates, CommandFault>
    ensures { Passes (option_map error_of (first_fault (tree value.now))) (λ u. u ≡ updates_in (tree value.now)) result }
{
    match Updates::read(alloc, value) {
        Ok(updates) => Ok(updates),
        Err(UpdateFault::NoMemory) => Err(CommandFault::NoMemory),
        Err(fault) => Err(refuse(update_error(alloc, fault))),
    }
}

/// The update of a command; one that is absent changes nothing.
pub(crate) fn read_updates(alloc: Global, command: &Value) -> Result<Updates, CommandFault>
    ensures { Passes (update_refusal (tree command.now)) (λ u. u ≡ updates_of (tree command.now)) result }
{
    match member(command, "update") {
        Some(value) => read_value(alloc, value),
        None => Ok(Updates::none(alloc)),
    }
}
