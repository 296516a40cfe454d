// What a command takes out of its value as it is: a document, documents, a replacement, a name.
ghost use Rattle.std.specs.Prelude.{◌≡◌, ⊤, None};
ghost use Rattle.json_tree.specs.View.{tree};
ghost use Rattle.cmd_grammar.specs.Refused.{inserted_refusal, many_inserted_refusal, replacement_refusal, contents_refusal};
ghost use Rattle.cmd_grammar.specs.Judged.{content_in};
ghost use Rattle.cmd_grammar.specs.Answers.{Passes};

use crate::documents::{check_document, check_each_document, check_replacing};
use crate::fault::CommandFault;
use crate::members::{member, take_member};
use crate::name::Name;
use json_tree::Value;
use std::alloc::Global;

fn check_inserted(alloc: Global, command: &Value) -> Result<(), CommandFault>
    ensures { Passes (inserted_refusal (tree command.now)) (λ _. ⊤) result }
{
    match member(command, "document") {
        Some(document) => check_document(alloc, document),
        None => Ok(()),
    }
}

fn check_many_inserted(alloc: Global, command: &Value) -> Result<(), CommandFault>
    ensures { Passes (many_inserted_refusal (tree command.now)) (λ _. ⊤) result }
{
    match member(command, "documents") {
        Some(Value::List(documents)) => check_each_document(alloc, documents),
        _ => Ok(()),
    }
}

fn check_replacement(alloc: Global, command: &Value) -> Result<(), CommandFault>
    ensures { Passes (replacement_refusal (tree command.now)) (λ _. ⊤) result }
{
    match member(command, "replacement") {
        Some(replacement) => check_replacing(alloc, replacement),
        None => Ok(()),
    }
}

/// The tests of the members `document`, `documents` and `replacement`.
pub(crate) fn check_contents(alloc: Global, command: &Value) -> Result<(), CommandFault>
    ensures { Passes (contents_refusal (tree command.now)) (λ _. ⊤) result }
{
    check_inserted(alloc, command)?;
    check_many_inserted(alloc, command)?;
    check_replacement(alloc, command)
}

/// What the command takes out of its value, copied; null where that is nothing.
pub(crate) fn copied_content(alloc: Global, name: Name, body: &Value) -> Result<Value, CommandFault>
    ensures { Passes None (λ v. tree v ≡ content_in name (tree body.now)) result }
{
    let Some(content) = name.content() else {
        return Ok(Value::Null);
    };
    let Some(command) = member(body, name.text()) else {
        return Ok(Value::Null);
    };
    let Some(value) = member(command, content) else {
        return Ok(Value::Null);
    };
    match value.try_copy(alloc) {
        Ok(copy) => Ok(copy),
        Err(_) => Err(CommandFault::NoMemory),
    }
}

/// The same, moved out of the body.
pub(crate) fn taken_content(name: Name, body: Value) -> Value
    ensures { tree result ≡ content_in name (tree body) }
{
    let Some(content) = name.content() else {
        return Value::Null;
    };
    let Some(command) = take_member(body, name.text()) else {
        return Value::Null;
    };
    match take_member(command, content) {
        Some(value) => value,
        None => Value::Null,
    }
}
