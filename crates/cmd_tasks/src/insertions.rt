// The steps of insertions: of the documents of a request, one in a step, or of one document since none matched.
ghost use Rattle.std.specs.Prelude.{◌≡◌, ◌⊎◌, ℕ, ◌+◌, ◌++◌, ◌∷◌, [], ◌<◌, ◌≤◌, length, Some, None, IfOk, IfSome, IsSome};
ghost use Rattle.std.specs.Option.{ForSome};
ghost use Rattle.json_tree.specs.View.{tree};
ghost use Rattle.shred_cols.specs.Row.{id_of};
ghost use Rattle.col_keeper.specs.Tables.{KeepsLimits};
ghost use Rattle.reply_env.specs.Messages as errors;
ghost use Rattle.reply_env.specs.Reply.{TellsInserted, IsRefusalOf};
ghost use Rattle.reply_env.specs.declared.reply.ErrorItem.{ErrorItem as Error};
ghost use Rattle.store_core.specs.Counts.{opened_in};
ghost use Rattle.store_core.specs.Store.{IsLawful, SameBase};
ghost use Rattle.store_core.specs.Growth.{Grows};
ghost use Rattle.cmd_grammar.specs.Commands.{IsStorable};
ghost use Rattle.cmd_tasks.specs.Insertions.{TellsInsertions};
ghost use Rattle.cmd_tasks.specs.Looking.{IsLooked, Refuses};
ghost use Rattle.cmd_tasks.specs.Puts.{Puts, EndsPut};
ghost use Rattle.cmd_tasks.specs.Moves.{Steps, Promises, IsInsertions, EndsSo};
ghost use Rattle.cmd_tasks.specs.Inserting.{IsNextOf, InsertsOn, InsertsMore, StopsAll};
ghost use Rattle.cmd_tasks.specs.declared.trace.Item.TheVariants.{Wrote, Lost, Faulted};

use crate::glance::refuse;
use crate::steps::{Ends, ends_of, failed, mark, marked};
use crate::trace::Item;
use crate::work::{Insertions, Moved, State};
use col_keeper::{Keeper, limits_bound_ids};
use doc_paths::CollName;
use json_tree::{Doc, DocId, TreeFault, Value};
use reply_env::{
    ErrorItem, Reply, ReplyFault, SoFar, already_exists, no_collection, store_fault, versions_spent,
};
use std::alloc::Global;
use store_core::{Change, Store, WriteOutcome};

/// The id is taken.
fn taken(alloc: Global, at: u64, found: Option<u64>, id: &DocId) -> Moved
    requires { IsSome found }
    ensures { (tx : ℕ) → found ≡ Some tx → EndsSo (Lost at 0 (Some tx)) (Refuses (errors.already_exists id.now tx)) result }
{
    let Some(tx) = found else { unreachable!() };
    Moved::Ends {
        item: Item::Lost { at, read: 0, found },
        reply: refuse(alloc, already_exists(alloc, id, tx)),
    }
}

/// A document's id.
fn key_of(alloc: Global, doc: &Doc) -> Result<DocId, TreeFault>
    ensures { IfOk result (λ key. key ≡ id_of doc.now) }
{
    let key = doc.id().try_copy(alloc)?;
    Ok(key)
}

/// The insertion of a document of which the reply is at hand.
pub(crate) fn put_in_place<K: Keeper>(
    alloc: Global,
    store: &mut Store<K>,
    by: u64,
    coll: &CollName,
    doc: Doc,
    reply: Reply,
) -> Moved
    requires known { by < opened_in store.old.journal }
    requires limits { KeepsLimits doc }
    ensures puts { Puts by (K.failed store.old.keeper) (K.failed store.new.keeper) store.old.journal store.new.journal result }
    ensures told { ForSome store.old.start (λ base. EndsPut base coll.now by store.new.journal doc reply result) }
    ensures base { SameBase store.old store.new }
    ensures grows { Grows (Some by) store.old.journal store.new.journal }
    ensures faults { K.failed store.old.keeper ≤ K.failed store.new.keeper }
    ensures work { K.called store.new.keeper ≤ K.called store.old.keeper + 1 }
    ensures lawful { IsLawful store.new }
{
    limits_bound_ids();
    store.journal_len();
    doc.value();
    let Ok(key) = key_of(alloc, &doc) else {
        return Moved::NoMemory;
    };
    let Ok(ends) = ends_of(alloc, &key) else {
        return Moved::NoMemory;
    };
    let Ends { after, up_to } = ends;
    match store.write(alloc, by, coll, &key, None, Change::Insert { doc }) {
        WriteOutcome::Written { at, tx: _ } => Moved::Ends {
            item: Item::Wrote { at },
            reply,
        },
        WriteOutcome::Lost { at, found } => taken(alloc, at, found, &key),
        WriteOutcome::NoCollection { at } => {
            marked(alloc, at, after, up_to, no_collection(alloc, coll.text()))
        }
        WriteOutcome::VersionsSpent { at } => {
            marked(alloc, at, after, up_to, versions_spent(alloc))
        }
        WriteOutcome::Fault { at, before, after } => failed(alloc, at, before, after),
        WriteOutcome::NoMemory => Moved::NoMemory,
    }
}

/// What the insertions told so far did.
fn so_far(ids: Vec<DocId>) -> Option<SoFar>
    ensures { TellsInserted ids.items result }
{
    if ids.is_empty() {
        return None;
    }
    Some(SoFar::Inserted(ids))
}

/// The reply to all insertions: their ids, or the errors, with the ids beside them.
fn told(ids: Vec<DocId>, errors: Vec<ErrorItem>) -> Reply
    ensures { TellsInsertions ids.items errors.items result }
{
    if errors.is_empty() {
        return Reply::Inserted { ids };
    }
    Reply::Refused {
        errors,
        so_far: so_far(ids),
    }
}

/// Behind an item the next document comes, or all is told.
fn go_on(item: Item, insertions: Insertions) -> Moved
    ensures { InsertsOn insertions item result }
{
    let is_over = insertions.ordered && !insertions.errors.is_empty();
    if insertions.left.is_empty() || is_over {
        let Insertions {
            all: _,
            left: _,
            ordered: _,
            ids,
            errors,
        } = insertions;
        return Moved::Ends {
            item,
            reply: told(ids, errors),
        };
    }
    Moved::Goes {
        item,
        state: State::Inserting { insertions },
    }
}

/// The errors with one more.
fn with_error(
    errors: Vec<ErrorItem>,
    error: Result<ErrorItem, ReplyFault>,
) -> Option<Vec<ErrorItem>>
    ensures { (e : Error) → IfOk error (λ x. x ≡ e) → IfSome result (λ more. more.items ≡ errors.items ++ e ∷ []) }
{
    let mut errors = errors;
    let Ok(error) = error else {
        return None;
    };
    match errors.push(error) {
        Ok(()) => Some(errors),
        Err(_) => None,
    }
}

/// The next one's id is there: its error is told where all is, and the others go on unless they are ordered.
fn doubled(alloc: Global, at: u64, found: Option<u64>, id: &DocId, insertions: Insertions) -> Moved
    requires { IsSome found }
    ensures { (tx : ℕ) → found ≡ Some tx → (result ≡ Moved.NoMemory) ⊎ InsertsMore insertions [] (errors.already_exists id.now tx ∷ []) (Lost at 0 (Some tx)) result }
{
    let Some(tx) = found else { unreachable!() };
    let Insertions {
        all,
        left,
        ordered,
        ids,
        errors,
    } = insertions;
    let Some(errors) = with_error(errors, already_exists(alloc, id, tx)) else {
        return Moved::NoMemory;
    };
    let insertions = Insertions {
        all,
        left,
        ordered,
        ids,
        errors,
    };
    go_on(Item::Lost { at, read: 0, found }, insertions)
}

/// The request stops with this error.
fn stopped(item: Item, insertions: Insertions, error: Result<ErrorItem, ReplyFault>) -> Moved
    ensures { (e : Error) → IfOk error (λ x. x ≡ e) → StopsAll insertions (λ i. i ≡ item) e result }
{
    let Insertions {
        all: _,
        left: _,
        ordered: _,
        ids,
        errors,
    } = insertions;
    let accepted = ids.len() as u64;
    let reply = match with_error(errors, error) {
        Some(errors) => Reply::Refused {
            errors,
            so_far: so_far(ids),
        },
        None => Reply::NoMemory { accepted },
    };
    Moved::Ends { item, reply }
}

/// The request stops at a look at nothing, in the place of the write of this id.
fn stopped_at(
    alloc: Global,
    at: u64,
    id: &DocId,
    insertions: Insertions,
    error: Result<ErrorItem, ReplyFault>,
) -> Moved
    ensures { (e : Error) → IfOk error (λ x. x ≡ e) → (result ≡ Moved.NoMemory) ⊎ StopsAll insertions (λ i. IsLooked i at (Some id.now) (Some id.now) []) e result }
{
    let Ok(ends) = ends_of(alloc, id) else {
        return Moved::NoMemory;
    };
    let item = mark(alloc, at, ends.after, ends.up_to);
    stopped(item, insertions, error)
}

/// The request stops at a failed call.
fn failed_at(alloc: Global, at: u64, before: u64, after: u64, insertions: Insertions) -> Moved
    ensures { StopsAll insertions (λ i. i ≡ Faulted at before after) (errors.store_fault before after) result }
{
    let item = Item::Faulted { at, before, after };
    stopped(item, insertions, store_fault(alloc, before, after))
}

/// The next one, with its id.
#[derive(Drop)]
struct Insertion {
    doc: Doc,
    key: DocId,
}

fn prepared(alloc: Global, document: Value) -> Result<Insertion, TreeFault>
    requires { IsStorable (tree document) }
    ensures { IfOk result (λ next. (next.doc ≡ tree document) × (next.key ≡ id_of next.doc)) }
{
    let doc = Doc::of_value(alloc, document)?;
    let key = key_of(alloc, &doc)?;
    Ok(Insertion { doc, key })
}

/// The insertion of the next one, behind which these are left. Room for its id is taken before the write.
fn insert_doc<K: Keeper>(
    alloc: Global,
    store: &mut Store<K>,
    by: u64,
    coll: &CollName,
    next: Insertion,
    rest: Insertions,
) -> Moved
    requires known { by < opened_in store.old.journal }
    requires doc { IsStorable next.doc }
    requires id { next.key ≡ id_of next.doc }
    ensures steps { (i : Insertions) → IsInsertions i → IsNextOf i next.doc rest → Steps by (K.failed store.old.keeper) (K.failed store.new.keeper) (State.Inserting i) store.old.journal store.new.journal result }
    ensures leads { (i : Insertions) → IsInsertions i → IsNextOf i next.doc rest → Promises store.old.start coll.now by store.old.journal store.new.journal (State.Inserting i) result }
    ensures base { SameBase store.old store.new }
    ensures grows { Grows (Some by) store.old.journal store.new.journal }
    ensures faults { K.failed store.old.keeper ≤ K.failed store.new.keeper }
    ensures work { K.called store.new.keeper ≤ K.called store.old.keeper + 1 }
    ensures lawful { IsLawful store.new }
{
    limits_bound_ids();
    store.journal_len();
    let Insertion { doc, key } = next;
    let mut rest = rest;
    if rest.ids.reserve(1).is_err() {
        return Moved::NoMemory;
    }
    match store.write(alloc, by, coll, &key, None, Change::Insert { doc }) {
        WriteOutcome::Written { at, tx: _ } => {
            rest.ids.push_reserved(key);
            go_on(Item::Wrote { at }, rest)
        }
        WriteOutcome::Lost { at, found } => doubled(alloc, at, found, &key, rest),
        WriteOutcome::NoCollection { at } => {
            stopped_at(alloc, at, &key, rest, no_collection(alloc, coll.text()))
        }
        WriteOutcome::VersionsSpent { at } => {
            stopped_at(alloc, at, &key, rest, versions_spent(alloc))
        }
        WriteOutcome::Fault { at, before, after } => { failed_at(alloc, at, before, after, rest) }
        WriteOutcome::NoMemory => Moved::NoMemory,
    }
}

/// The step of the next document.
pub(crate) fn insert<K: Keeper>(
    alloc: Global,
    store: &mut Store<K>,
    by: u64,
    coll: &CollName,
    insertions: Insertions,
) -> Moved
    requires known { by < opened_in store.old.journal }
    requires ready { IsInsertions insertions }
    ensures steps { Steps by (K.failed store.old.keeper) (K.failed store.new.keeper) (State.Inserting insertions) store.old.journal store.new.journal result }
    ensures leads { Promises store.old.start coll.now by store.old.journal store.new.journal (State.Inserting insertions) result }
    ensures base { SameBase store.old store.new }
    ensures grows { Grows (Some by) store.old.journal store.new.journal }
    ensures faults { K.failed store.old.keeper ≤ K.failed store.new.keeper }
    ensures work { K.called store.new.keeper ≤ K.called store.old.keeper + 1 }
    ensures lawful { IsLawful store.new }
{
    store.journal_len();
    let mut insertions = insertions;
    let Some(document) = insertions.left.pop() else {
        unreachable!()
    };
    match prepared(alloc, document) {
        Ok(next) => insert_doc(alloc, store, by, coll, next, insertions),
        Err(_) => Moved::NoMemory,
    }
}
