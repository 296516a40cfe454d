// What is to be done about a document that was found, or where none was.
ghost use Rattle.std.specs.Prelude.{◌≡◌, ◌≢◌, Option, IfOk, IfSome};
ghost use Rattle.shred_cols.specs.Row.{id_of};
ghost use Rattle.filter_tree.specs.View.{filter_tree};
ghost use Rattle.col_keeper.specs.Tables.{IsShort, KeepsLimits};
ghost use Rattle.cmd_grammar.specs.Refused.{update_error as error_of};
ghost use Rattle.reply_env.specs.declared.reply.Reply.TheVariants as replies;
ghost use Rattle.update_ops.specs.Apply.{Gives};
ghost use Rattle.update_ops.specs.declared.fault.UpdateFault.TheVariants as faults;
ghost use Rattle.store_core.specs.Journal.{FitsId, new_doc};
ghost use Rattle.store_core.specs.declared.entry.Change.{Change as Written};
ghost use Rattle.cmd_tasks.specs.Doing.{change_of as change, upsert_of};
ghost use Rattle.cmd_tasks.specs.Looking.{Refuses};
ghost use Rattle.cmd_tasks.specs.Many.{doing_of};
ghost use Rattle.cmd_tasks.specs.Going.{Meets, MakesPut};

use crate::glance::refuse;
use crate::upserts::{made_of, upserted_document};
use crate::work::{Attempt, Doing};
use cmd_grammar::update_error;
use filter_tree::Filter;
use json_tree::{Doc, DocId};
use reply_env::Reply;
use shred_cols::Row;
use std::alloc::Global;
use store_core::Change;
use update_ops::UpdateFault;

/// What is written in the place of a document, if anything is.
fn change_of(alloc: Global, doing: &Doing, doc: &Doc) -> Result<Option<Change>, UpdateFault>
    ensures told { Gives (λ (written : Option Written). written) result (change (doing_of doing.now) doc.now) }
    ensures fits { IfOk result (λ written. IfSome written (λ c. FitsId (id_of doc.now) (new_doc c))) }
{
    match doing {
        Doing::Makes { making, .. } => made_of(alloc, making, doc),
        Doing::Deletes => Ok(Some(Change::Delete)),
    }
}

/// The document that is inserted where none matches, if one is to be.
pub(crate) fn to_insert(
    alloc: Global,
    filter: &Filter,
    doing: &Doing,
) -> Result<Option<Doc>, UpdateFault>
    ensures told { MakesPut (upsert_of (filter_tree filter.now) (doing_of doing.now)) result }
    ensures limits { IfOk result (λ made. IfSome made (λ d. KeepsLimits d)) }
{
    let Doing::Makes { making, upsert } = doing else {
        return Ok(None);
    };
    let Some(id) = upsert else {
        return Ok(None);
    };
    match upserted_document(alloc, filter, making, id) {
        Ok(doc) => Ok(Some(doc)),
        Err(fault) => Err(fault),
    }
}

/// The reply where a change is refused on the document, or the one that was to be inserted is.
pub(crate) fn declined(alloc: Global, fault: UpdateFault) -> Reply
    ensures cut { fault ≡ faults.NoMemory → result ≡ replies.NoMemory 0 }
    ensures told { fault ≢ faults.NoMemory → Refuses (error_of fault) result }
{
    if let UpdateFault::NoMemory = fault {
        return Reply::NoMemory { accepted: 0 };
    }
    refuse(alloc, update_error(alloc, fault))
}

/// What a row's document asks for: no write, since it would stay as it is, or an attempt; or its change is refused, or
/// memory was wanting.
#[derive(Drop)]
pub(crate) enum Met {
    Unchanged(DocId),
    Changed(Attempt),
    Refused(UpdateFault),
}

pub(crate) fn meet(alloc: Global, doing: &Doing, row: &Row) -> Met
    requires { IsShort (id_of row.now.doc) }
    ensures { Meets (doing_of doing.now) row.now result }
{
    let Ok(id) = row.id().try_copy(alloc) else {
        return Met::Refused(UpdateFault::NoMemory);
    };
    match change_of(alloc, doing, row.doc()) {
        Ok(Some(change)) => Met::Changed(Attempt {
            id,
            read: row.tx(),
            change,
        }),
        Ok(None) => Met::Unchanged(id),
        Err(fault) => Met::Refused(fault),
    }
}
