// How a command's documents are paged, and how many of each thing it may have.
ghost use Rattle.std.specs.Prelude.{◌≡◌, ⊤, length, option_map};
ghost use Rattle.json_tree.specs.View.{tree};
ghost use Rattle.cmd_grammar.specs.Parts.{sort_of, documents_of, page_text};
ghost use Rattle.cmd_grammar.specs.Fields.{paging_refusal, at_most, limits_refusal};
ghost use Rattle.cmd_grammar.specs.Answers.{Passes};

use crate::fault::{CommandFault, refuse};
use crate::members::{member, option};
use crate::numbers::number_in;
use json_tree::{Text, Value};
use reply_env::{bad_option, command_limit};
use std::alloc::Global;

const MOST_DOCUMENTS: u64 = 100;

const MOST_SKIPPED: u64 = 480;

const MOST_PATHS: u64 = 8;

// How many paths the sort has, whether they can be read or not.
fn sort_len(command: &Value) -> usize
    ensures { result ≡ length (sort_of (tree command.now)) }
{
    match member(command, "sort") {
        Some(Value::Object(paths)) => paths.len(),
        _ => 0,
    }
}

// How many documents are to be inserted together.
fn documents_len(command: &Value) -> usize
    ensures { result ≡ length (documents_of (tree command.now)) }
{
    match member(command, "documents") {
        Some(Value::List(documents)) => documents.len(),
        _ => 0,
    }
}

/// The text of the page state, where there is one.
pub(crate) fn page_text(command: &Value) -> Option<&Text>
    ensures { option_map (λ s. s.now) result ≡ page_text (tree command.now) }
{
    match option(command, "pageState") {
        Some(Value::Text(text)) => Some(text),
        _ => None,
    }
}

/// The tests of the skip and of the page state with the sort.
pub(crate) fn check_paging(alloc: Global, command: &Value) -> Result<(), CommandFault>
    ensures { Passes (paging_refusal (tree command.now)) (λ _. ⊤) result }
{
    let paths = sort_len(command);
    if paths == 0 && number_in(command, "skip") != 0 {
        return Err(refuse(bad_option(alloc, "skip")));
    }
    if paths != 0 && page_text(command).is_some() {
        return Err(refuse(bad_option(alloc, "pageState")));
    }
    Ok(())
}

fn check_most(alloc: Global, field: &str, bound: u64, found: u64) -> Result<(), CommandFault>
    ensures { Passes (at_most field.now bound found) (λ _. ⊤) result }
{
    if found > bound {
        return Err(refuse(command_limit(alloc, field, bound, found)));
    }
    Ok(())
}

/// The limits of a command.
pub(crate) fn check_limits(alloc: Global, command: &Value) -> Result<(), CommandFault>
    ensures { Passes (limits_refusal (tree command.now)) (λ _. ⊤) result }
{
    check_most(
        alloc,
        "documents",
        MOST_DOCUMENTS,
        documents_len(command) as u64,
    )?;
    check_most(alloc, "skip", MOST_SKIPPED, number_in(command, "skip"))?;
    check_most(alloc, "sort", MOST_PATHS, sort_len(command) as u64)
}
