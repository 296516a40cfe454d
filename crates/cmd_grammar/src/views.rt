// The projection, the sort and the page state of a command.
ghost use Rattle.std.specs.Prelude.{◌≡◌, Some, None, option_map};
ghost use Rattle.json_tree.specs.View.{tree};
ghost use Rattle.view_sort.specs.Projection.{projection_fault, projection_in};
ghost use Rattle.view_sort.specs.Sort.{sort_fault, sort_in};
ghost use Rattle.view_sort.specs.declared.fault.ViewFault.{ViewFault};
ghost use Rattle.cmd_grammar.specs.declared.fault.CommandFault.{CommandFault};
ghost use Rattle.cmd_grammar.specs.Parts.{sort_of, shows_of, page_text, IsPage};
ghost use Rattle.cmd_grammar.specs.Refused.{view_error, projection_refusal, sort_refusal};
ghost use Rattle.cmd_grammar.specs.Answers.{Passes, PassesAll, Refuses};

use crate::fault::{CommandFault, refuse};
use crate::members::member;
use crate::paging::page_text;
use json_tree::{Members, Value};
use reply_env::{bad_page_state, bad_projection, bad_sort};
use std::alloc::Global;
use view_sort::{PageState, Projection, Sort, ViewFault};

fn refused(alloc: Global, fault: ViewFault) -> CommandFault
    ensures told { Refuses (Some (view_error fault)) result }
    ensures wanting { fault ≡ ViewFault.NoMemory → result ≡ CommandFault.NoMemory }
{
    match fault {
        ViewFault::BadProjection { path } => refuse(bad_projection(alloc, path.as_str())),
        ViewFault::BadSort { path } => refuse(bad_sort(alloc, path.as_str())),
        ViewFault::BadPageState => refuse(bad_page_state(alloc)),
        ViewFault::NoMemory => CommandFault::NoMemory,
    }
}

fn projection_in(alloc: Global, value: &Value) -> Result<Projection, CommandFault>
    ensures { Passes (option_map view_error (projection_fault (tree value.now))) (λ p. p ≡ projection_in (tree value.now)) result }
{
    match Projection::read(alloc, value) {
        Ok(projection) => Ok(projection),
        Err(fault) => Err(refused(alloc, fault)),
    }
}

/// The projection of a command; one that is absent is `{}`.
pub(crate) fn read_projection(alloc: Global, command: &Value) -> Result<Projection, CommandFault>
    ensures { Passes (projection_refusal (tree command.now)) (λ p. p ≡ shows_of (tree command.now)) result }
{
    match member(command, "projection") {
        Some(value) => projection_in(alloc, value),
        None => projection_in(alloc, &Value::Object(Members::new(alloc))),
    }
}

fn sort_in(alloc: Global, value: &Value) -> Result<Sort, CommandFault>
    ensures { Passes (option_map view_error (sort_fault (tree value.now))) (λ s. s ≡ sort_in (tree value.now)) result }
{
    match Sort::read(alloc, value) {
        Ok(sort) => Ok(sort),
        Err(fault) => Err(refused(alloc, fault)),
    }
}

/// The sort of a command; one that is absent is `{}`.
pub(crate) fn read_sort(alloc: Global, command: &Value) -> Result<Sort, CommandFault>
    ensures { Passes (sort_refusal (tree command.now)) (λ s. s ≡ sort_of (tree command.now)) result }
{
    match member(command, "sort") {
        Some(value) => sort_in(alloc, value),
        None => sort_in(alloc, &Value::Object(Members::new(alloc))),
    }
}

/// The page state of a command, where it has one.
pub(crate) fn read_page(alloc: Global, command: &Value) -> Result<Option<PageState>, CommandFault>
    ensures { PassesAll None (page_text (tree command.now)) (λ page. IsPage (page_text (tree command.now)) page) result }
{
    match page_text(command) {
        Some(text) => match PageState::read(alloc, text.as_str()) {
            Ok(state) => Ok(Some(state)),
            Err(fault) => Err(refused(alloc, fault)),
        },
        None => Ok(None),
    }
}
