// One page of a listing.
ghost use Rattle.std.specs.Prelude.{◌≡◌, ℕ, ◌+◌, ◌<◌, ◌≤◌, Option, Some, None, List, map, IfOk, IfSome, true};
ghost use Rattle.std.specs.List.{filter};
ghost use Rattle.std.specs.Option.{ForSome, option_copied};
ghost use Rattle.json_tree.specs.Tree.{Tree};
ghost use Rattle.filter_tree.specs.Matches.{matches};
ghost use Rattle.filter_tree.specs.View.{filter_tree};
ghost use Rattle.filter_plan.specs.View.{IsPlanOf};
ghost use Rattle.col_keeper.specs.Pages.{IsPage};
ghost use Rattle.cmd_grammar.specs.Commands.{IsAskableFilter};
ghost use Rattle.reply_env.specs.Messages as errors;
ghost use Rattle.reply_env.specs.declared.reply.ErrorItem.{ErrorItem};
ghost use Rattle.store_core.specs.Counts.{opened_in};
ghost use Rattle.store_core.specs.Store.{IsLawful, SameBase};
ghost use Rattle.store_core.specs.Growth.{Grows};
ghost use Rattle.cmd_tasks.specs.Pages.{up_of, pair_of};
ghost use Rattle.cmd_tasks.specs.Rank.{IsKeyed};
ghost use Rattle.cmd_tasks.specs.Wanted.{IsWanted};
ghost use Rattle.cmd_tasks.specs.Looking.{ShowsShort, ShowsFew, ShowsRows, ShowsNothing, StopsWith, Glances, Sees, GoesUp, Refuses};
ghost use Rattle.cmd_tasks.specs.declared.trace.Item.TheVariants.{Faulted};

use crate::trace::Item;
use crate::work::{Glance, Wanted, is_match};
use col_keeper::Keeper;
use doc_paths::CollName;
use filter_plan::Plan;
use filter_tree::Filter;
use json_tree::{DocId, TreeFault, key_bytes_are_ordered};
use reply_env::{ErrorItem, Reply, ReplyFault, no_collection, refusal, store_fault};
use shred_cols::Row;
use std::alloc::{AllocError, Global};
use store_core::{Paged, Store};

/// The reply that refuses by an error, or that memory was wanting.
pub(crate) fn refuse(alloc: Global, error: Result<ErrorItem, ReplyFault>) -> Reply
    ensures { (e : ErrorItem) → IfOk error (λ x. x ≡ e) → Refuses e result }
{
    let Ok(error) = error else {
        return Reply::NoMemory { accepted: 0 };
    };
    match refusal(alloc, error) {
        Ok(reply) => reply,
        Err(_) => Reply::NoMemory { accepted: 0 },
    }
}

/// The rows that match.
fn matching(wanted: &Filter, plan: &Plan, rows: Vec<Row>) -> Vec<Row>
    requires { IsAskableFilter (filter_tree wanted.now) × IsPlanOf (filter_tree wanted.now) plan.now }
    ensures { result.items ≡ filter (λ v. matches (filter_tree wanted.now) v.doc) rows.items }
{
    let mut rows = rows;
    rows.retain(|row| is_match(wanted, plan, row));
    rows
}

/// Their ids and numbers.
fn pairs(alloc: Global, rows: &[Row]) -> Result<Vec<(DocId, u64)>, TreeFault>
    ensures { IfOk result (λ v. v.items ≡ map pair_of rows.now) }
{
    let mut pairs = Vec::with_capacity(alloc, rows.len())?;
    'rows: for row in rows {
        let id = row.id().try_copy(alloc)?;
        pairs.push((id, row.tx()))?;
    }
    Ok(pairs)
}

/// Where the look ends: at the last row, or nowhere.
fn last_id(alloc: Global, rows: &[Row], end: bool) -> Result<Option<DocId>, TreeFault>
    ensures { IfOk result (λ last. last ≡ up_of end rows.now) }
{
    if end {
        return Ok(None);
    }
    match rows.last() {
        Some(row) => match row.id().try_copy(alloc) {
            Ok(id) => Ok(Some(id)),
            Err(e) => Err(e),
        },
        None => Ok(None),
    }
}

fn copy_id(alloc: Global, id: &Option<DocId>) -> Result<Option<DocId>, TreeFault>
    ensures { IfOk result (λ copy. copy ≡ id.now) }
{
    match id {
        Some(id) => match id.try_copy(alloc) {
            Ok(id) => Ok(Some(id)),
            Err(e) => Err(e),
        },
        None => Ok(None),
    }
}

/// An id is one of the program, with key bytes that are bytes.
fn is_keyed(id: &DocId)
    ensures { IsKeyed id.now }
{
    id.value();
}

fn are_keyed(ids: &Option<DocId>)
    ensures { IfSome ids.now IsKeyed }
{
    if let Some(id) = ids {
        is_keyed(id);
    }
}

/// The end of a page lies behind its start.
fn rises(after: &Option<DocId>, page: &[Row], end: bool)
    requires { IsPage after.now 64 page.now end }
    ensures { GoesUp after.now (up_of end page.now) }
{
    are_keyed(after);
    key_bytes_are_ordered();
    match page.last() {
        Some(row) => is_keyed(row.id()),
        None => {}
    }
}

/// The page as a look that was made at this point.
#[tactic(none)]
fn shown(
    alloc: Global,
    wanted: &Filter,
    plan: &Plan,
    at: u64,
    after: Option<DocId>,
    page: Vec<Row>,
    end: bool,
) -> Glance
    requires { IsAskableFilter (filter_tree wanted.now) × IsPlanOf (filter_tree wanted.now) plan.now }
    ensures { ShowsRows (filter_tree wanted.now) at after page.items end result }
{
    let Ok(up_to) = last_id(alloc, &page, end) else {
        return Glance::NoMemory;
    };
    let Ok(last) = last_id(alloc, &page, end) else {
        return Glance::NoMemory;
    };
    let rows = matching(wanted, plan, page);
    match pairs(alloc, &rows) {
        Ok(shown) => Glance::Shown {
            item: Item::Looked {
                at,
                after,
                up_to,
                shown,
            },
            rows,
            last,
        },
        Err(_) => Glance::NoMemory,
    }
}

/// No page, since the collection doesn't live.
fn gone(alloc: Global, at: u64, after: Option<DocId>, coll: &CollName) -> Glance
    ensures { ShowsNothing at after (Refuses (errors.no_collection coll.now)) result }
{
    let reply = refuse(alloc, no_collection(alloc, coll.text()));
    let item = Item::Looked {
        at,
        after,
        up_to: None,
        shown: Vec::new(alloc),
    };
    Glance::Ended { item, reply }
}

/// The reply that tells a failed call.
pub(crate) fn fault_reply(alloc: Global, before: u64, after: u64) -> Reply
    ensures { Refuses (errors.store_fault before after) result }
{
    refuse(alloc, store_fault(alloc, before, after))
}

/// No page, since the call failed.
fn faulted(alloc: Global, at: u64, before: u64, after: u64) -> Glance
    ensures { StopsWith (Faulted at before after) (Refuses (errors.store_fault before after)) result }
{
    let reply = fault_reply(alloc, before, after);
    let item = Item::Faulted { at, before, after };
    Glance::Ended { item, reply }
}

/// The next page of a listing: one call of the store.
pub(crate) fn glance<K: Keeper>(
    alloc: Global,
    store: &mut Store<K>,
    by: u64,
    coll: &CollName,
    wanted: &Wanted,
    last: &Option<DocId>,
) -> Glance
    requires known { by < opened_in store.old.journal }
    requires wanted { IsWanted wanted.now }
    ensures made { Glances by (K.failed store.old.keeper) (K.failed store.new.keeper) last.now store.old.journal store.new.journal result }
    ensures short { ShowsShort result }
    ensures few { ShowsFew result }
    ensures told { ForSome store.old.start (λ base. Sees base coll.now by store.new.journal (filter_tree wanted.now.filter) last.now result) }
    ensures base { SameBase store.old store.new }
    ensures grows { Grows (Some by) store.old.journal store.new.journal }
    ensures faults { K.failed store.old.keeper ≤ K.failed store.new.keeper }
    ensures work { K.called store.new.keeper ≤ K.called store.old.keeper + 1 }
    ensures lawful { IsLawful store.new }
{
    store.journal_len();
    let Some(plan) = &wanted.plan else {
        return Glance::NoMemory;
    };
    let Ok(after) = copy_id(alloc, last) else {
        return Glance::NoMemory;
    };
    match store.page(alloc, Some(by), coll, plan.probe(), last.as_ref()) {
        Paged::Rows { at, rows, end } => {
            rises(last, &rows, end);
            shown(alloc, &wanted.filter, plan, at, after, rows, end)
        }
        Paged::NoCollection { at } => gone(alloc, at, after, coll),
        Paged::Fault { at, before, after } => faulted(alloc, at, before, after),
        Paged::NoMemory => Glance::NoMemory,
    }
}
