// The steps of a command that changes one document: a search for the first match, an attempt on it, or the insertion of
// a document where none matches.
ghost use Rattle.std.specs.Prelude.{◌≡◌, ◌+◌, ◌<◌, ◌≤◌, ◌++◌, ◌∷◌, [], None, Some, Ok, IfSome};
ghost use Rattle.shred_cols.specs.Row.{id_of};
ghost use Rattle.filter_tree.specs.View.{filter_tree};
ghost use Rattle.col_keeper.specs.Tables.{IsShort, KeepsLimits};
ghost use Rattle.reply_env.specs.Messages as errors;
ghost use Rattle.store_core.specs.Counts.{opened_in};
ghost use Rattle.store_core.specs.Store.{IsLawful, SameBase, AtState};
ghost use Rattle.store_core.specs.Growth.{Grows};
ghost use Rattle.cmd_tasks.specs.Doing.{change_of, upsert_of};
ghost use Rattle.cmd_tasks.specs.Outcomes.{ready};
ghost use Rattle.cmd_tasks.specs.Looking.{AreShort, Refuses};
ghost use Rattle.cmd_tasks.specs.Many.{doing_of, IsReadyTo};
ghost use Rattle.cmd_tasks.specs.Going.{Meets};
ghost use Rattle.cmd_tasks.specs.Ones.{Takes, Misses, Chooses, LosesTo};
ghost use Rattle.cmd_tasks.specs.Moves.{Steps, Promises, IsOne, Fits};

use crate::glance::refuse;
use crate::insertions::put_in_place;
use crate::meeting::{Met, declined, meet, to_insert};
use crate::outcomes::{tell_changed, tell_none, tell_put, tell_unchanged};
use crate::search::search;
use crate::steps::{ends_of, failed, marked};
use crate::trace::Item;
use crate::work::{Attempt, Moved, One, Progress, Searched, State};
use col_keeper::Keeper;
use doc_paths::CollName;
use json_tree::Doc;
use reply_env::{Loss, Reply, lost_writes, no_collection, versions_spent};
use shred_cols::Row;
use std::alloc::Global;
use store_core::{Store, WriteOutcome, entries_tell_numbers, numbers_are_given_once};

/// So many attempts may be lost.
pub(crate) const MOST: usize = 4;

/// The attempt on the row comes next, with the reply that tells it.
fn attempted(alloc: Global, one: One, item: Item, row: &Row, attempt: Attempt) -> Moved
    requires { Meets (doing_of one.doing) row.now (Met.Changed attempt) }
    ensures { Takes one item row.now result }
{
    match tell_changed(alloc, &one.doing, &one.form, row.doc(), &attempt.change) {
        Ok(reply) => Moved::Goes {
            item,
            state: State::Changing {
                one,
                attempt,
                reply,
            },
        },
        Err(_) => Moved::Ends {
            item,
            reply: Reply::NoMemory { accepted: 0 },
        },
    }
}

/// The row stays as it is, and the reply tells it.
fn left_alone(alloc: Global, one: One, item: Item, row: &Row) -> Moved
    requires { change_of (doing_of one.doing) row.now.doc ≡ Ok None }
    ensures { Takes one item row.now result }
{
    match tell_unchanged(alloc, &one.form, row.doc()) {
        Ok(reply) => Moved::Ends { item, reply },
        Err(_) => Moved::Ends {
            item,
            reply: Reply::NoMemory { accepted: 0 },
        },
    }
}

/// What is made of the row that is taken.
fn taken(alloc: Global, one: One, item: Item, row: &Row) -> Moved
    requires { IsShort (id_of row.now.doc) }
    ensures { Takes one item row.now result }
{
    match meet(alloc, &one.doing, row) {
        Met::Changed(attempt) => attempted(alloc, one, item, row, attempt),
        Met::Unchanged(_) => left_alone(alloc, one, item, row),
        Met::Refused(fault) => Moved::Ends {
            item,
            reply: declined(alloc, fault),
        },
    }
}

/// The insertion of the document comes next, with the reply that tells it.
fn put_next(alloc: Global, one: One, item: Item, doc: Doc) -> Moved
    requires document { ready (upsert_of (filter_tree one.search.wanted.filter) (doing_of one.doing)) ≡ Some doc }
    requires limits { KeepsLimits doc }
    ensures { Misses one item result }
{
    match tell_put(alloc, &one.form, &doc) {
        Ok(reply) => Moved::Goes {
            item,
            state: State::Putting { one, doc, reply },
        },
        Err(_) => Moved::Ends {
            item,
            reply: Reply::NoMemory { accepted: 0 },
        },
    }
}

/// What is made of it that none was found.
fn missed(alloc: Global, one: One, item: Item) -> Moved
    ensures { Misses one item result }
{
    match to_insert(alloc, &one.search.wanted.filter, &one.doing) {
        Ok(Some(doc)) => put_next(alloc, one, item, doc),
        Ok(None) => Moved::Ends {
            item,
            reply: tell_none(&one.doing, &one.form),
        },
        Err(fault) => Moved::Ends {
            item,
            reply: declined(alloc, fault),
        },
    }
}

/// What is made of the rows that were searched for, of which the first is taken.
fn chosen(alloc: Global, one: One, item: Item, rows: &[Row]) -> Moved
    requires { AreShort rows.now }
    ensures { Chooses one item rows.now result }
{
    match rows.first() {
        Some(row) => taken(alloc, one, item, row),
        None => missed(alloc, one, item),
    }
}

/// A step of the search.
pub(crate) fn choose<K: Keeper>(
    alloc: Global,
    store: &mut Store<K>,
    by: u64,
    coll: &CollName,
    one: One,
    progress: Progress,
) -> Moved
    requires known { by < opened_in store.old.journal }
    requires one { IsOne one }
    requires few { progress.shown < 10001 }
    requires short { AreShort progress.kept.items }
    ensures steps { Steps by (K.failed store.old.keeper) (K.failed store.new.keeper) (State.Choosing one progress) store.old.journal store.new.journal result }
    ensures leads { Promises store.old.start coll.now by store.old.journal store.new.journal (State.Choosing one progress) result }
    ensures base { SameBase store.old store.new }
    ensures grows { Grows (Some by) store.old.journal store.new.journal }
    ensures faults { K.failed store.old.keeper ≤ K.failed store.new.keeper }
    ensures work { K.called store.new.keeper ≤ K.called store.old.keeper + 1 }
    ensures lawful { IsLawful store.new }
{
    match search(alloc, store, by, coll, &one.search, progress) {
        Searched::More { item, progress } => Moved::Goes {
            item,
            state: State::Choosing { one, progress },
        },
        Searched::Whole { item, progress } => chosen(alloc, one, item, progress.kept.as_slice()),
        Searched::Stopped { item, reply } => Moved::Ends { item, reply },
        Searched::NoMemory => Moved::NoMemory,
    }
}

/// The lost attempts with one more.
pub(crate) fn with_loss(lost: Vec<Loss>, loss: Loss) -> Option<Vec<Loss>>
    ensures { IfSome result (λ more. more.items ≡ lost.items ++ loss ∷ []) }
{
    let mut lost = lost;
    match lost.push(loss) {
        Ok(()) => Some(lost),
        Err(_) => None,
    }
}

/// The reply that tells the lost attempts.
pub(crate) fn conflict(alloc: Global, lost: &[Loss]) -> Reply
    ensures { Refuses (errors.lost_writes lost.now) result }
{
    refuse(alloc, lost_writes(alloc, lost))
}

/// An attempt was lost: a new round begins, or four were lost.
fn lost_to(alloc: Global, at: u64, one: One, read: u64, found: Option<u64>) -> Moved
    ensures { LosesTo at read found one result }
{
    let item = Item::Lost { at, read, found };
    let One {
        search,
        doing,
        form,
        lost,
    } = one;
    let Some(lost) = with_loss(lost, Loss { read, found }) else {
        return Moved::Ends {
            item,
            reply: Reply::NoMemory { accepted: 0 },
        };
    };
    if lost.len() >= MOST {
        return Moved::Ends {
            item,
            reply: conflict(alloc, &lost),
        };
    }
    let one = One {
        search,
        doing,
        form,
        lost,
    };
    let progress = Progress::begin(alloc, None);
    Moved::Goes {
        item,
        state: State::Choosing { one, progress },
    }
}

/// The attempt on the document that was chosen. Where it is won, this is the reply.
pub(crate) fn change<K: Keeper>(
    alloc: Global,
    store: &mut Store<K>,
    by: u64,
    coll: &CollName,
    one: One,
    attempt: Attempt,
    reply: Reply,
) -> Moved
    requires known { by < opened_in store.old.journal }
    requires one { IsOne one }
    requires ready { IsReadyTo attempt }
    requires fits { AtState store.old (λ s. Fits s coll.now (State.Changing one attempt reply)) }
    ensures steps { Steps by (K.failed store.old.keeper) (K.failed store.new.keeper) (State.Changing one attempt reply) store.old.journal store.new.journal result }
    ensures leads { Promises store.old.start coll.now by store.old.journal store.new.journal (State.Changing one attempt reply) result }
    ensures base { SameBase store.old store.new }
    ensures grows { Grows (Some by) store.old.journal store.new.journal }
    ensures faults { K.failed store.old.keeper ≤ K.failed store.new.keeper }
    ensures work { K.called store.new.keeper ≤ K.called store.old.keeper + 1 }
    ensures lawful { IsLawful store.new }
{
    store.journal_len();
    numbers_are_given_once();
    entries_tell_numbers();
    let Attempt { id, read, change } = attempt;
    let Ok(ends) = ends_of(alloc, &id) else {
        return Moved::NoMemory;
    };
    match store.write(alloc, by, coll, &id, Some(read), change) {
        WriteOutcome::Written { at, tx: _ } => Moved::Ends {
            item: Item::Wrote { at },
            reply,
        },
        WriteOutcome::Lost { at, found } => lost_to(alloc, at, one, read, found),
        WriteOutcome::NoCollection { at } => {
            marked(
                alloc,
                at,
                ends.after,
                ends.up_to,
                no_collection(alloc, coll.text()),
            )
        }
        WriteOutcome::VersionsSpent { at } => {
            marked(alloc, at, ends.after, ends.up_to, versions_spent(alloc))
        }
        WriteOutcome::Fault { at, before, after } => failed(alloc, at, before, after),
        WriteOutcome::NoMemory => Moved::NoMemory,
    }
}

/// The insertion of a document since none was found. Where it is accepted, this is the reply.
pub(crate) fn put<K: Keeper>(
    alloc: Global,
    store: &mut Store<K>,
    by: u64,
    coll: &CollName,
    one: One,
    doc: Doc,
    reply: Reply,
) -> Moved
    requires known { by < opened_in store.old.journal }
    requires limits { KeepsLimits doc }
    ensures steps { Steps by (K.failed store.old.keeper) (K.failed store.new.keeper) (State.Putting one doc reply) store.old.journal store.new.journal result }
    ensures leads { Promises store.old.start coll.now by store.old.journal store.new.journal (State.Putting one doc reply) result }
    ensures base { SameBase store.old store.new }
    ensures grows { Grows (Some by) store.old.journal store.new.journal }
    ensures faults { K.failed store.old.keeper ≤ K.failed store.new.keeper }
    ensures work { K.called store.new.keeper ≤ K.called store.old.keeper + 1 }
    ensures lawful { IsLawful store.new }
{
    drop(one);
    put_in_place(alloc, store, by, coll, doc, reply)
}
