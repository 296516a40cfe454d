// The steps of a command that takes many documents: a page, an attempt on one of them, or a look at one alone.
ghost use Rattle.std.specs.Prelude.{◌≡◌, ◌⊎◌, ◌+◌, ◌<◌, ◌≤◌, length, Some, IfOk, IfSome, IsSome};
ghost use Rattle.shred_cols.specs.Row.{id_of};
ghost use Rattle.filter_tree.specs.View.{filter_tree};
ghost use Rattle.col_keeper.specs.Tables.{IsShort, KeepsLimits};
ghost use Rattle.store_core.specs.Counts.{opened_in};
ghost use Rattle.store_core.specs.Store.{IsLawful, SameBase, AtState};
ghost use Rattle.store_core.specs.Growth.{Grows};
ghost use Rattle.cmd_tasks.specs.Wanted.{IsWanted};
ghost use Rattle.cmd_tasks.specs.Many.{IsMany, IsStand};
ghost use Rattle.cmd_tasks.specs.Moves.{Steps, Promises, IsReady, Fits};
ghost use Rattle.cmd_tasks.specs.ManySteps.{HasPage, EndsAfter, LosesOne, matching_row, pairs_of, HasFirst, Retakes};
ghost use Rattle.cmd_tasks.specs.declared.work.Moved.TheVariants as moved;

use crate::glance::glance;
use crate::insertions::put_in_place;
use crate::one::{MOST, conflict, with_loss};
use crate::steps::{Ends, ends_of, failed, marked};
use crate::taking::{counted, go_on, told_after};
use crate::trace::Item;
use crate::work::{Attempt, Doing, Glance, Many, Moved, Stand, State, Wanted, is_match};
use col_keeper::Keeper;
use doc_paths::CollName;
use json_tree::{Doc, DocId, TreeFault};
use reply_env::{Loss, Reply, no_collection, versions_spent};
use shred_cols::Row;
use std::alloc::{AllocError, Global};
use store_core::{Looked, Store, WriteOutcome, entries_tell_numbers, numbers_are_given_once};

/// Where the command stands with a page more, of which nothing is taken.
fn listed(stand: Stand, rows: Vec<Row>, last: Option<DocId>) -> Stand
    ensures { HasPage stand rows.items last result }
{
    let mut queue = rows;
    queue.reverse();
    Stand {
        is_whole: last.is_none(),
        from: last,
        queue,
        lost: stand.lost,
        matched: stand.matched,
        modified: stand.modified,
        last: stand.last,
    }
}

/// A step that ends tells what was written before.
fn ends_after(doing: &Doing, stand: &Stand, moved: Moved) -> Moved
    ensures { EndsAfter doing.now stand.now moved result }
{
    match moved {
        Moved::Goes { item, state } => Moved::Goes { item, state },
        Moved::Ends { item, reply } => Moved::Ends {
            item,
            reply: told_after(doing, stand, reply),
        },
        Moved::NoMemory => Moved::NoMemory,
    }
}

/// The next page.
pub(crate) fn list_more<K: Keeper>(
    alloc: Global,
    store: &mut Store<K>,
    by: u64,
    coll: &CollName,
    many: Many,
    stand: Stand,
) -> Moved
    requires known { by < opened_in store.old.journal }
    requires ready { IsReady (State.Paging many stand) }
    ensures steps { Steps by (K.failed store.old.keeper) (K.failed store.new.keeper) (State.Paging many stand) store.old.journal store.new.journal result }
    ensures leads { Promises store.old.start coll.now by store.old.journal store.new.journal (State.Paging many stand) result }
    ensures base { SameBase store.old store.new }
    ensures grows { Grows (Some by) store.old.journal store.new.journal }
    ensures faults { K.failed store.old.keeper ≤ K.failed store.new.keeper }
    ensures work { K.called store.new.keeper ≤ K.called store.old.keeper + 1 }
    ensures lawful { IsLawful store.new }
{
    match glance(alloc, store, by, coll, &many.wanted, &stand.from) {
        Glance::Shown { item, rows, last } => go_on(alloc, item, many, listed(stand, rows, last)),
        Glance::Ended { item, reply } => Moved::Ends {
            item,
            reply: told_after(&many.doing, &stand, reply),
        },
        Glance::NoMemory => Moved::NoMemory,
    }
}

/// The attempt was lost: its document is looked at again, or four were lost.
fn attempt_lost(alloc: Global, at: u64, many: Many, stand: Stand, id: DocId, loss: Loss) -> Moved
    ensures { LosesOne at many stand id loss result }
{
    let item = Item::Lost {
        at,
        read: loss.read,
        found: loss.found,
    };
    let Stand {
        from,
        is_whole,
        queue,
        lost,
        matched,
        modified,
        last,
    } = stand;
    let Some(lost) = with_loss(lost, loss) else {
        return Moved::Ends {
            item,
            reply: Reply::NoMemory { accepted: modified },
        };
    };
    let stand = Stand {
        from,
        is_whole,
        queue,
        lost,
        matched,
        modified,
        last,
    };
    if stand.lost.len() >= MOST {
        let reply = conflict(alloc, &stand.lost);
        return Moved::Ends {
            item,
            reply: told_after(&many.doing, &stand, reply),
        };
    }
    Moved::Goes {
        item,
        state: State::Retrying { many, stand, id },
    }
}

/// The attempt on the document that was taken.
pub(crate) fn try_one<K: Keeper>(
    alloc: Global,
    store: &mut Store<K>,
    by: u64,
    coll: &CollName,
    many: Many,
    stand: Stand,
    attempt: Attempt,
) -> Moved
    requires known { by < opened_in store.old.journal }
    requires ready { IsReady (State.Trying many stand attempt) }
    requires fits { AtState store.old (λ s. Fits s coll.now (State.Trying many stand attempt)) }
    ensures steps { Steps by (K.failed store.old.keeper) (K.failed store.new.keeper) (State.Trying many stand attempt) store.old.journal store.new.journal result }
    ensures leads { Promises store.old.start coll.now by store.old.journal store.new.journal (State.Trying many stand attempt) result }
    ensures base { SameBase store.old store.new }
    ensures grows { Grows (Some by) store.old.journal store.new.journal }
    ensures faults { K.failed store.old.keeper ≤ K.failed store.new.keeper }
    ensures work { K.called store.new.keeper ≤ K.called store.old.keeper + 1 }
    ensures lawful { IsLawful store.new }
{
    store.journal_len();
    numbers_are_given_once();
    entries_tell_numbers();
    let Attempt { id, read, change } = attempt;
    let Ok(ends) = ends_of(alloc, &id) else {
        return Moved::NoMemory;
    };
    let Ends { after, up_to } = ends;
    match store.write(alloc, by, coll, &id, Some(read), change) {
        WriteOutcome::Written { at, tx: _ } => {
            go_on(
                alloc,
                Item::Wrote { at },
                many,
                counted(alloc, stand, id, 1),
            )
        }
        WriteOutcome::Lost { at, found } => {
            attempt_lost(alloc, at, many, stand, id, Loss { read, found })
        }
        WriteOutcome::NoCollection { at } => {
            let error = no_collection(alloc, coll.text());
            ends_after(&many.doing, &stand, marked(alloc, at, after, up_to, error))
        }
        WriteOutcome::VersionsSpent { at } => {
            let error = versions_spent(alloc);
            ends_after(&many.doing, &stand, marked(alloc, at, after, up_to, error))
        }
        WriteOutcome::Fault { at, before, after } => {
            ends_after(&many.doing, &stand, failed(alloc, at, before, after))
        }
        WriteOutcome::NoMemory => Moved::NoMemory,
    }
}

/// The row, if it is there and matches.
fn matching(wanted: &Wanted, row: Option<Row>) -> Option<Row>
    requires wanted { IsWanted wanted.now }
    requires plan { IsSome wanted.now.plan }
    ensures { result ≡ matching_row (filter_tree wanted.now.filter) row }
{
    let Some(row) = row else {
        return None;
    };
    let Some(plan) = &wanted.plan else {
        unreachable!()
    };
    if is_match(&wanted.filter, plan, &row) {
        Some(row)
    } else {
        None
    }
}

/// The pair of the row that a look at one id shows, if it shows one.
fn pair_of(alloc: Global, row: &Option<Row>) -> Result<Vec<(DocId, u64)>, TreeFault>
    ensures { IfOk result (λ v. v.items ≡ pairs_of row.now) }
{
    let mut pairs = Vec::new(alloc);
    if let Some(row) = row {
        let id = row.id().try_copy(alloc)?;
        pairs.push((id, row.tx()))?;
    }
    Ok(pairs)
}

/// Where the command stands when the row that is looked at again is first in the queue, or is passed over.
fn put_first(alloc: Global, stand: Stand, row: Option<Row>) -> Result<Stand, AllocError>
    ensures { IfOk result (λ new. HasFirst stand row new) }
{
    let mut stand = stand;
    match row {
        Some(row) => {
            stand.queue.push(row)?;
        }
        None => stand.lost = Vec::new(alloc),
    }
    Ok(stand)
}

/// The row that was looked at again is taken, or passed over.
fn retaken(alloc: Global, at: u64, ends: Ends, many: Many, stand: Stand, row: Option<Row>) -> Moved
    requires many { IsMany many }
    requires plan { IsSome many.wanted.plan }
    requires stand { IsStand stand }
    requires room { length stand.queue.items < 64 }
    requires short { IfSome row (λ v. IsShort (id_of v.doc)) }
    ensures { Retakes at ends.after ends.up_to many stand row result ⊎ (result ≡ moved.NoMemory) }
{
    let row = matching(&many.wanted, row);
    let Ok(shown) = pair_of(alloc, &row) else {
        return Moved::NoMemory;
    };
    let Ok(stand) = put_first(alloc, stand, row) else {
        return Moved::NoMemory;
    };
    let item = Item::Looked {
        at,
        after: Some(ends.after),
        up_to: Some(ends.up_to),
        shown,
    };
    go_on(alloc, item, many, stand)
}

/// The look at a document on which an attempt was lost.
pub(crate) fn look_again<K: Keeper>(
    alloc: Global,
    store: &mut Store<K>,
    by: u64,
    coll: &CollName,
    many: Many,
    stand: Stand,
    id: DocId,
) -> Moved
    requires known { by < opened_in store.old.journal }
    requires ready { IsReady (State.Retrying many stand id) }
    ensures steps { Steps by (K.failed store.old.keeper) (K.failed store.new.keeper) (State.Retrying many stand id) store.old.journal store.new.journal result }
    ensures leads { Promises store.old.start coll.now by store.old.journal store.new.journal (State.Retrying many stand id) result }
    ensures base { SameBase store.old store.new }
    ensures grows { Grows (Some by) store.old.journal store.new.journal }
    ensures faults { K.failed store.old.keeper ≤ K.failed store.new.keeper }
    ensures work { K.called store.new.keeper ≤ K.called store.old.keeper + 1 }
    ensures lawful { IsLawful store.new }
{
    store.journal_len();
    if many.wanted.plan.is_none() {
        return Moved::NoMemory;
    }
    let Ok(ends) = ends_of(alloc, &id) else {
        return Moved::NoMemory;
    };
    match store.look(alloc, Some(by), coll, &id) {
        Looked::Row { at, row } => retaken(alloc, at, ends, many, stand, row),
        Looked::NoCollection { at } => {
            let error = no_collection(alloc, coll.text());
            ends_after(
                &many.doing,
                &stand,
                marked(alloc, at, ends.after, ends.up_to, error),
            )
        }
        Looked::Fault { at, before, after } => {
            ends_after(&many.doing, &stand, failed(alloc, at, before, after))
        }
        Looked::NoMemory => Moved::NoMemory,
    }
}

/// The insertion of a document since none was counted. Where it is accepted, this is the reply.
pub(crate) fn put_one<K: Keeper>(
    alloc: Global,
    store: &mut Store<K>,
    by: u64,
    coll: &CollName,
    many: Many,
    stand: Stand,
    doc: Doc,
    reply: Reply,
) -> Moved
    requires known { by < opened_in store.old.journal }
    requires limits { KeepsLimits doc }
    ensures steps { Steps by (K.failed store.old.keeper) (K.failed store.new.keeper) (State.PuttingMany many stand doc reply) store.old.journal store.new.journal result }
    ensures leads { Promises store.old.start coll.now by store.old.journal store.new.journal (State.PuttingMany many stand doc reply) result }
    ensures base { SameBase store.old store.new }
    ensures grows { Grows (Some by) store.old.journal store.new.journal }
    ensures faults { K.failed store.old.keeper ≤ K.failed store.new.keeper }
    ensures work { K.called store.new.keeper ≤ K.called store.old.keeper + 1 }
    ensures lawful { IsLawful store.new }
{
    drop(many);
    drop(stand);
    put_in_place(alloc, store, by, coll, doc, reply)
}
