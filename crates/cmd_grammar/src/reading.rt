// The reader of commands.
ghost use Rattle.std.specs.Prelude.{◌≡◌, ◌≢◌, ⊤, option_map, Some, IfOk};
ghost use Rattle.json_text.specs.declared.read.TextFault.{TextFault};
ghost use Rattle.reply_env.specs.Messages as errors;
ghost use Rattle.cmd_grammar.specs.declared.fault.CommandFault.{CommandFault};
ghost use Rattle.json_tree.specs.View.{tree};
ghost use Rattle.json_tree.specs.Writable.{IsWritable};
ghost use Rattle.filter_tree.specs.View.{filter_tree};
ghost use Rattle.cmd_grammar.specs.Parts.{page_text};
ghost use Rattle.cmd_grammar.specs.Refused.{command_at, page_at, fields_refusal, command_refusal, refused};
ghost use Rattle.cmd_grammar.specs.Asked.{IsPlaced};
ghost use Rattle.cmd_grammar.specs.Commands.{command_tree, IsAskable, IsAskableFilter};
ghost use Rattle.cmd_grammar.specs.Answers.{Refuses, Passes, PassesAll, Answers};
ghost use Rattle.cmd_grammar.specs.Requests.{IsReadAs};
ghost use Rattle.cmd_grammar.specs.Judged.{named_refusal, AreParts, IsJudged};

use crate::checks::{check_place, named_at};
use crate::command::Command;
use crate::contents::{copied_content, taken_content};
use crate::fault::{CommandFault, refuse};
use crate::fields::check_fields;
use crate::making::made;
use crate::name::Name;
use crate::paging::{check_limits, check_paging};
use crate::parts::{Parts, read_parts};
use crate::row::table_row;
use json_text::{TextFault, read_value};
use json_tree::Value;
use reply_env::{Place, Request, bad_field, no_command, unread};
use std::alloc::Global;

// The command and its value, in an object of one member with the name of a command of the path's level.
fn named<'v>(place: &Place, value: &'v Value) -> Option<(Name, &'v Value)>
    ensures { option_map (λ p. (p.0, tree p.1.now)) result ≡ command_at place.now.collection (tree value.now) }
{
    let Value::Object(members) = value else {
        return None;
    };
    if members.len() != 1 {
        return None;
    }
    match members.pair(0) {
        Some((name, inner)) => match named_at(&place.collection, name.as_str()) {
            Some(name) => Some((name, inner)),
            None => None,
        },
        None => None,
    }
}

// The members of a command's value, by the row of the command.
fn check_members(alloc: Global, name: Name, command: &Value) -> Result<(), CommandFault>
    ensures { Passes (fields_refusal (name, tree command.now)) (λ _. ⊤) result }
{
    match command {
        Value::Object(members) => check_fields(alloc, table_row(name), members),
        _ => Err(refuse(bad_field(alloc, name.text()))),
    }
}

// The tests of a command's value; its parts are read by the way.
fn check_command(alloc: Global, name: Name, command: &Value) -> Result<Parts, CommandFault>
    ensures answers { PassesAll (command_refusal (name, tree command.now)) (page_text (tree command.now)) (λ p. AreParts (tree command.now) p) result }
    ensures filter { IsWritable (tree command.now) → IfOk result (λ p. IsAskableFilter (filter_tree p.filter)) }
{
    match check_members(alloc, name, command) {
        Ok(()) => {}
        Err(fault) => return Err(fault),
    }
    match check_paging(alloc, command) {
        Ok(()) => {}
        Err(fault) => return Err(fault),
    }
    match check_limits(alloc, command) {
        Ok(()) => read_parts(alloc, command),
        Err(fault) => Err(fault),
    }
}

// The tests of a request that is of this command, behind that of its name.
fn judge_named(
    alloc: Global,
    place: &Place,
    keyspace: &str,
    name: Name,
    command: &Value,
) -> Result<Parts, CommandFault>
    ensures answers { PassesAll (named_refusal keyspace.now place.now (name, tree command.now)) (page_text (tree command.now)) (λ p. AreParts (tree command.now) p) result }
    ensures filter { IsWritable (tree command.now) → IfOk result (λ p. IsAskableFilter (filter_tree p.filter)) }
{
    match check_place(alloc, keyspace, place, name, command) {
        Ok(()) => check_command(alloc, name, command),
        Err(fault) => Err(fault),
    }
}

// The tests of a request.
fn judge(
    alloc: Global,
    place: &Place,
    keyspace: &str,
    value: &Value,
) -> Result<(Name, Parts), CommandFault>
    ensures answers { PassesAll (refused keyspace.now place.now (tree value.now)) (page_at place.now (tree value.now)) (λ j. IsJudged place.now (tree value.now) j.0 j.1) result }
    ensures filter { IsWritable (tree value.now) → IfOk result (λ j. IsAskableFilter (filter_tree j.1.filter)) }
{
    match named(place, value) {
        None => Err(refuse(no_command(alloc))),
        Some((name, command)) => match judge_named(alloc, place, keyspace, name, command) {
            Ok(parts) => Ok((name, parts)),
            Err(fault) => Err(fault),
        },
    }
}

/// The command that a body asks for at a place, or the first refusal. Documents and replacements are copied out of the
/// body.
pub fn read_command(
    alloc: Global,
    place: &Place,
    keyspace: &str,
    value: &Value,
) -> Result<Command, CommandFault>
    ensures answers { Answers keyspace.now place.now (tree value.now) result }
    ensures ready { IsWritable (tree value.now) → IfOk result (λ c. IsAskable (command_tree c)) }
    ensures placed { IfOk result (λ c. IsPlaced keyspace.now place.now (command_tree c)) }
{
    match judge(alloc, place, keyspace, value) {
        Ok((name, parts)) => match copied_content(alloc, name, value) {
            Ok(content) => made(alloc, name, parts, content),
            Err(fault) => Err(fault),
        },
        Err(fault) => Err(fault),
    }
}

/// The same, with documents and replacements moved out of the body.
pub fn take_command(
    alloc: Global,
    place: &Place,
    keyspace: &str,
    value: Value,
) -> Result<Command, CommandFault>
    ensures answers { Answers keyspace.now place.now (tree value) result }
    ensures ready { IsWritable (tree value) → IfOk result (λ c. IsAskable (command_tree c)) }
    ensures placed { IfOk result (λ c. IsPlaced keyspace.now place.now (command_tree c)) }
{
    match judge(alloc, place, keyspace, &value) {
        Ok((name, parts)) => made(alloc, name, parts, taken_content(name, value)),
        Err(fault) => Err(fault),
    }
}

// The refusal of a body that spells no value.
fn refuse_unread(alloc: Global, fault: TextFault) -> CommandFault
    ensures told { fault ≢ TextFault.NoMemory → Refuses (Some (errors.unread fault)) result }
    ensures wanting { fault ≡ TextFault.NoMemory → result ≡ CommandFault.NoMemory }
{
    match fault {
        TextFault::NoMemory => CommandFault::NoMemory,
        _ => refuse(unread(alloc, fault)),
    }
}

/// The command that a request asks for, or the first refusal that the request alone shows: that its body spells no
/// value comes first.
pub fn read_request(
    alloc: Global,
    keyspace: &str,
    request: &Request,
) -> Result<Command, CommandFault>
    ensures answers { IsReadAs keyspace.now request.now result }
    ensures ready { IfOk result (λ c. IsAskable (command_tree c)) }
    ensures placed { IfOk result (λ c. IsPlaced keyspace.now request.now.place (command_tree c)) }
{
    match read_value(alloc, request.body.as_slice()) {
        Ok(value) => take_command(alloc, &request.place, keyspace, value),
        Err(fault) => Err(refuse_unread(alloc, fault)),
    }
}
