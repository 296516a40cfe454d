// The filter of a command.
ghost use Rattle.std.specs.Prelude.{◌≡◌, Some, IfOk, option_map};
ghost use Rattle.json_tree.specs.View.{tree};
ghost use Rattle.json_tree.specs.Writable.{IsWritable};
ghost use Rattle.filter_tree.specs.View.{filter_tree};
ghost use Rattle.filter_tree.specs.Faults.{first_fault};
ghost use Rattle.filter_tree.specs.Reads.{filter_in};
ghost use Rattle.filter_tree.specs.declared.fault.FilterFault.{FilterFault};
ghost use Rattle.cmd_grammar.specs.declared.fault.CommandFault.{CommandFault};
ghost use Rattle.cmd_grammar.specs.Refused.{filter_error, filter_refusal};
ghost use Rattle.cmd_grammar.specs.Parts.{filter_of};
ghost use Rattle.cmd_grammar.specs.Commands.{IsAskableFilter};
ghost use Rattle.cmd_grammar.specs.Answers.{Passes, Refuses};

use crate::fault::{CommandFault, refuse};
use crate::members::member;
use filter_tree::{Filter, FilterFault};
use json_tree::{Members, Value};
use reply_env::{bad_filter, many_operands, no_filter_operator};
use std::alloc::Global;

fn refused(alloc: Global, fault: FilterFault) -> CommandFault
    ensures told { Refuses (Some (filter_error fault)) result }
    ensures wanting { fault ≡ FilterFault.NoMemory → result ≡ CommandFault.NoMemory }
{
    match fault {
        FilterFault::Invalid { path } => refuse(bad_filter(alloc, path.as_str())),
        FilterFault::UnknownOperator { name } => refuse(no_filter_operator(alloc, name.as_str())),
        FilterFault::TooManyOperands { found } => refuse(many_operands(alloc, found)),
        FilterFault::NoMemory => CommandFault::NoMemory,
    }
}

// The filter that a value spells.
fn read_value(alloc: Global, value: &Value) -> Result<Filter, CommandFault>
    ensures answers { Passes (option_map filter_error (first_fault (tree value.now))) (λ f. filter_tree f ≡ filter_in (tree value.now)) result }
    ensures ready { IsWritable (tree value.now) → IfOk result (λ f. IsAskableFilter (filter_tree f)) }
{
    match Filter::read(alloc, value) {
        Ok(filter) => Ok(filter),
        Err(fault) => Err(refused(alloc, fault)),
    }
}

/// The filter of a command; one that is absent is `{}`.
pub(crate) fn read_filter(alloc: Global, command: &Value) -> Result<Filter, CommandFault>
    ensures answers { Passes (filter_refusal (tree command.now)) (λ f. filter_tree f ≡ filter_of (tree command.now)) result }
    ensures ready { IsWritable (tree command.now) → IfOk result (λ f. IsAskableFilter (filter_tree f)) }
{
    match member(command, "filter") {
        Some(value) => read_value(alloc, value),
        None => read_value(alloc, &Value::Object(Members::new(alloc))),
    }
}
