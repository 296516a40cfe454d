// What the members of a command's value spell.
ghost use Rattle.std.specs.Prelude.{◌≡◌, IfOk};
ghost use Rattle.json_tree.specs.View.{tree};
ghost use Rattle.json_tree.specs.Writable.{IsWritable};
ghost use Rattle.filter_tree.specs.View.{filter_tree};
ghost use Rattle.cmd_grammar.specs.Commands.{IsAskableFilter};
ghost use Rattle.cmd_grammar.specs.Parts.{page_text};
ghost use Rattle.cmd_grammar.specs.Refused.{parts_refusal};
ghost use Rattle.cmd_grammar.specs.Answers.{PassesAll};
ghost use Rattle.cmd_grammar.specs.Judged.{listing_refusal, choices_of, IsListing, AreParts};

use crate::contents::check_contents;
use crate::fault::CommandFault;
use crate::filters::read_filter;
use crate::members::{flag_in, is_after};
use crate::numbers::number_in;
use crate::updates::read_updates;
use crate::views::{read_page, read_projection, read_sort};
use filter_tree::Filter;
use json_tree::Value;
use std::alloc::Global;
use update_ops::Updates;
use view_sort::{PageState, Projection, Sort};

/// Which of what matches is shown, and how.
#[derive(Drop)]
pub(crate) struct Listing {
    pub(crate) projection: Projection,
    pub(crate) sort: Sort,
    pub(crate) limit: u64,
    pub(crate) skip: u64,
    pub(crate) page: Option<PageState>,
}

/// The options that choose one of two.
#[derive(Clone, Copy)]
pub(crate) struct Choices {
    /// The first document whose id is taken ends an insertion of many.
    pub(crate) ordered: bool,
    /// Where no document matches, one is inserted.
    pub(crate) upsert: bool,
    /// A document that is changed is shown as it is left.
    pub(crate) after: bool,
}

/// What a command's value spells beside its content.
#[derive(Drop)]
pub(crate) struct Parts {
    pub(crate) filter: Filter,
    pub(crate) updates: Updates,
    pub(crate) listing: Listing,
    pub(crate) choices: Choices,
}

// The options that choose one of two.
fn choices_in(command: &Value) -> Choices
    ensures { result ≡ choices_of (tree command.now) }
{
    Choices {
        ordered: flag_in(command, "ordered"),
        upsert: flag_in(command, "upsert"),
        after: is_after(command),
    }
}

// What a command's value tells of what is shown. Its content is tested behind the sort.
fn read_listing(alloc: Global, command: &Value) -> Result<Listing, CommandFault>
    ensures { PassesAll (listing_refusal (tree command.now)) (page_text (tree command.now)) (λ l. IsListing (tree command.now) l) result }
{
    let projection = match read_projection(alloc, command) {
        Ok(projection) => projection,
        Err(fault) => return Err(fault),
    };
    let sort = match read_sort(alloc, command) {
        Ok(sort) => sort,
        Err(fault) => return Err(fault),
    };
    match check_contents(alloc, command) {
        Ok(()) => {}
        Err(fault) => return Err(fault),
    }
    let limit = number_in(command, "limit");
    let skip = number_in(command, "skip");
    match read_page(alloc, command) {
        Ok(page) => Ok(Listing {
            projection,
            sort,
            limit,
            skip,
            page,
        }),
        Err(fault) => Err(fault),
    }
}

/// The parts of a command's value, read in the order of their tests; its content is tested by the way.
pub(crate) fn read_parts(alloc: Global, command: &Value) -> Result<Parts, CommandFault>
    ensures answers { PassesAll (parts_refusal (tree command.now)) (page_text (tree command.now)) (λ p. AreParts (tree command.now) p) result }
    ensures filter { IsWritable (tree command.now) → IfOk result (λ p. IsAskableFilter (filter_tree p.filter)) }
{
    let filter = match read_filter(alloc, command) {
        Ok(filter) => filter,
        Err(fault) => return Err(fault),
    };
    let updates = match read_updates(alloc, command) {
        Ok(updates) => updates,
        Err(fault) => return Err(fault),
    };
    let choices = choices_in(command);
    match read_listing(alloc, command) {
        Ok(listing) => Ok(Parts {
            filter,
            updates,
            listing,
            choices,
        }),
        Err(fault) => Err(fault),
    }
}
