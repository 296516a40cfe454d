// The steps of a count, and the ends that steps have in common.
ghost use Rattle.std.specs.Prelude.{◌≡◌, ◌+◌, ◌<◌, ◌≤◌, Some, [], IfOk};
ghost use Rattle.reply_env.specs.Messages as errors;
ghost use Rattle.store_core.specs.Counts.{opened_in};
ghost use Rattle.store_core.specs.Store.{IsLawful, SameBase};
ghost use Rattle.store_core.specs.Growth.{Grows};
ghost use Rattle.cmd_tasks.specs.Served.{counted};
ghost use Rattle.cmd_tasks.specs.Wanted.{IsWanted};
ghost use Rattle.cmd_tasks.specs.Looking.{IsLooked, Refuses};
ghost use Rattle.cmd_tasks.specs.Moves.{Steps, Promises, count_to, EndsSo, EndsMarked};
ghost use Rattle.cmd_tasks.specs.declared.trace.Item.TheVariants.{Faulted};
ghost use Rattle.reply_env.specs.declared.reply.ErrorItem.{ErrorItem as Error};

use crate::glance::{fault_reply, glance, refuse};
use crate::trace::Item;
use crate::work::{Glance, Moved, State, Wanted};
use col_keeper::Keeper;
use doc_paths::CollName;
use json_tree::{DocId, TreeFault};
use reply_env::{ErrorItem, Reply, ReplyFault};
use std::alloc::Global;
use store_core::Store;

/// A look at nothing, in the place of the write of this id.
pub(crate) fn mark(alloc: Global, at: u64, id: DocId, twin: DocId) -> Item
    ensures { IsLooked result at (Some id) (Some twin) [] }
{
    Item::Looked {
        at,
        after: Some(id),
        up_to: Some(twin),
        shown: Vec::new(alloc),
    }
}

/// The two ends of a mark in the place of the write of an id.
#[derive(Drop)]
pub(crate) struct Ends {
    pub(crate) after: DocId,
    pub(crate) up_to: DocId,
}

pub(crate) fn ends_of(alloc: Global, id: &DocId) -> Result<Ends, TreeFault>
    ensures { IfOk result (λ ends. (ends.after ≡ id.now) × (ends.up_to ≡ id.now)) }
{
    Ok(Ends {
        after: id.try_copy(alloc)?,
        up_to: id.try_copy(alloc)?,
    })
}

/// Nothing was there to be written to, or no number was left to write with.
pub(crate) fn marked(
    alloc: Global,
    at: u64,
    key: DocId,
    twin: DocId,
    error: Result<ErrorItem, ReplyFault>,
) -> Moved
    ensures { (e : Error) → IfOk error (λ x. x ≡ e) → EndsMarked at (Some key) (Some twin) (Refuses e) result }
{
    let item = mark(alloc, at, key, twin);
    let reply = refuse(alloc, error);
    Moved::Ends { item, reply }
}

/// The call failed.
pub(crate) fn failed(alloc: Global, at: u64, before: u64, after: u64) -> Moved
    ensures { EndsSo (Faulted at before after) (Refuses (errors.store_fault before after)) result }
{
    let reply = fault_reply(alloc, before, after);
    let item = Item::Faulted { at, before, after };
    Moved::Ends { item, reply }
}

fn reply_to(count: u64) -> Reply
    ensures { result ≡ counted count }
{
    if count > 1000 {
        Reply::Counted {
            count: 1000,
            more: true,
        }
    } else {
        Reply::Counted { count, more: false }
    }
}

/// What a count makes of a page, after which so many are counted.
fn counted_to(wanted: Wanted, item: Item, count: u64, last: Option<DocId>) -> Moved
    ensures { result ≡ count_to wanted item count last }
{
    match last {
        Some(id) if count < 1001 => Moved::Goes {
            item,
            state: State::Counting {
                wanted,
                last: Some(id),
                shown: count,
            },
        },
        _ => Moved::Ends {
            item,
            reply: reply_to(count),
        },
    }
}

/// A step of a count: one page.
pub(crate) fn count<K: Keeper>(
    alloc: Global,
    store: &mut Store<K>,
    by: u64,
    coll: &CollName,
    wanted: Wanted,
    last: Option<DocId>,
    so_far: u64,
) -> Moved
    requires known { by < opened_in store.old.journal }
    requires wanted { IsWanted wanted }
    requires few { so_far < 1001 }
    ensures steps { Steps by (K.failed store.old.keeper) (K.failed store.new.keeper) (State.Counting wanted last so_far) store.old.journal store.new.journal result }
    ensures leads { Promises store.old.start coll.now by store.old.journal store.new.journal (State.Counting wanted last so_far) result }
    ensures base { SameBase store.old store.new }
    ensures grows { Grows (Some by) store.old.journal store.new.journal }
    ensures faults { K.failed store.old.keeper ≤ K.failed store.new.keeper }
    ensures work { K.called store.new.keeper ≤ K.called store.old.keeper + 1 }
    ensures lawful { IsLawful store.new }
{
    match glance(alloc, store, by, coll, &wanted, &last) {
        Glance::Shown { item, rows, last } => {
            counted_to(wanted, item, so_far + rows.len() as u64, last)
        }
        Glance::Ended { item, reply } => Moved::Ends { item, reply },
        Glance::NoMemory => Moved::NoMemory,
    }
}
