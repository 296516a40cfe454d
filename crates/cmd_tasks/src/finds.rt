// The steps of findOne and find: a search, and the views of what it found.
ghost use Rattle.std.specs.Prelude.{◌≡◌, ◌+◌, ◌-◌, ◌<◌, ◌≤◌, ◌^◌, Some, map, drop, min, IfOk};
ghost use Rattle.std.specs.Option.{option_map};
ghost use Rattle.json_tree.specs.View.{tree};
ghost use Rattle.shred_cols.specs.Row.{id_of};
ghost use Rattle.shred_cols.specs.Rows.{first};
ghost use Rattle.view_sort.specs.View.{view};
ghost use Rattle.view_sort.specs.Page.{state_text};
ghost use Rattle.cmd_grammar.specs.Commands.{Paging};
ghost use Rattle.store_core.specs.Counts.{opened_in};
ghost use Rattle.store_core.specs.Store.{IsLawful, SameBase};
ghost use Rattle.store_core.specs.Growth.{Grows};
ghost use Rattle.cmd_tasks.specs.Pages.{found_row};
ghost use Rattle.cmd_tasks.specs.Part.{has_next, given_of, keep_of, state_after};
ghost use Rattle.cmd_tasks.specs.Searching.{IsSearchable};
ghost use Rattle.cmd_tasks.specs.Moves.{Steps, Promises, Finds, TellsPage, Lists, EndsSo, IsPart, paging};

use crate::search::search;
use crate::trace::Item;
use crate::work::{Moved, Part, Progress, Search, Searched, State};
use col_keeper::Keeper;
use doc_paths::CollName;
use json_tree::{Text, Value};
use reply_env::Reply;
use shred_cols::Row;
use std::alloc::Global;
use store_core::Store;
use view_sort::{PageState, Projection, Sort, ViewFault};

/// So many documents are shown on a page at most.
const PAGE: u64 = 20;

/// The reply that shows the first of these rows, or none.
fn first_of(alloc: Global, projection: &Projection, rows: &[Row]) -> Reply
    ensures { Finds (option_map (λ v. view projection.now v.doc) (first rows.now)) result }
{
    let Some(row) = rows.first() else {
        return Reply::Found { view: None };
    };
    match projection.apply(alloc, row.doc()) {
        Ok(view) => Reply::Found { view: Some(view) },
        Err(_) => Reply::NoMemory { accepted: 0 },
    }
}

/// What findOne makes of all that was searched for.
fn selected(
    alloc: Global,
    item: Item,
    _sought: Search,
    progress: Progress,
    projection: Projection,
) -> Moved
    ensures { EndsSo item (Finds (option_map (λ v. view projection v.doc) (first progress.kept.items))) result }
{
    let reply = first_of(alloc, &projection, progress.kept.as_slice());
    Moved::Ends { item, reply }
}

/// A step of findOne.
pub(crate) fn select<K: Keeper>(
    alloc: Global,
    store: &mut Store<K>,
    by: u64,
    coll: &CollName,
    sought: Search,
    progress: Progress,
    projection: Projection,
) -> Moved
    requires known { by < opened_in store.old.journal }
    requires searchable { IsSearchable sought progress }
    requires one { sought.keep ≡ 1 }
    ensures steps { Steps by (K.failed store.old.keeper) (K.failed store.new.keeper) (State.Selecting sought progress projection) store.old.journal store.new.journal result }
    ensures leads { Promises store.old.start coll.now by store.old.journal store.new.journal (State.Selecting sought progress projection) result }
    ensures base { SameBase store.old store.new }
    ensures grows { Grows (Some by) store.old.journal store.new.journal }
    ensures faults { K.failed store.old.keeper ≤ K.failed store.new.keeper }
    ensures work { K.called store.new.keeper ≤ K.called store.old.keeper + 1 }
    ensures lawful { IsLawful store.new }
{
    match search(alloc, store, by, coll, &sought, progress) {
        Searched::More { item, progress } => Moved::Goes {
            item,
            state: State::Selecting {
                search: sought,
                progress,
                projection,
            },
        },
        Searched::Whole { item, progress } => {
            selected(alloc, item, sought, progress, projection)
        }
        Searched::Stopped { item, reply } => Moved::Ends { item, reply },
        Searched::NoMemory => Moved::NoMemory,
    }
}

/// Whether a page that shows so many is full, and the limit isn't reached with it.
fn goes_on(limit: u64, given: u64, shown: usize) -> bool
    requires { given < 2 ^ 63 }
    ensures { (p : Paging) → p.limit ≡ limit → given_of p.page ≡ given → result ≡ has_next p shown }
{
    shown == PAGE as usize && (limit == 0 || given + (shown as u64) < limit)
}

/// The page state that goes on behind this document, when so many were given.
fn state_behind(alloc: Global, given: u64, row: &Row) -> Result<Option<Text>, ViewFault>
    ensures { IfOk result (λ state. state ≡ Some (state_text (min given (2 ^ 63 - 1)) (id_of row.now.doc))) }
{
    let page = PageState {
        given: given.min(i64::MAX as u64),
        last: row.id().try_copy(alloc)?,
    };
    let text = page.print(alloc)?;
    Ok(Some(text))
}

/// The page state behind these rows, if there is one.
fn state_after_rows(
    alloc: Global,
    sort: &Sort,
    part: &Part,
    rows: &[Row],
) -> Result<Option<Text>, ViewFault>
    requires part { IsPart part.now }
    ensures { IfOk result (λ state. state ≡ state_after sort.now (paging part.now) (map found_row rows.now)) }
{
    if !sort.is_empty() {
        return Ok(None);
    }
    if !goes_on(part.limit, part.given, rows.len()) {
        return Ok(None);
    }
    match rows.last() {
        Some(row) => state_behind(alloc, part.given + PAGE, row),
        None => Ok(None),
    }
}

/// The views of these rows.
fn views_of(alloc: Global, projection: &Projection, rows: &[Row]) -> Result<Vec<Value>, ViewFault>
    ensures { IfOk result (λ views. map tree views.items ≡ map (λ v. view projection.now v.doc) rows.now) }
{
    let mut views = Vec::with_capacity(alloc, rows.len())?;
    'rows: for row in rows {
        views.push(projection.apply(alloc, row.doc())?)?;
    }
    Ok(views)
}

/// The rows behind the first so many.
fn behind(rows: &[Row], skip: u64) -> &[Row]
    ensures { result.now ≡ drop skip rows.now }
{
    &rows[rows.len().min(skip as usize)..]
}

/// The reply that shows a page of what was found.
fn page_of(alloc: Global, sort: &Sort, part: &Part, kept: &[Row]) -> Result<Reply, ViewFault>
    requires part { IsPart part.now }
    ensures { IfOk result (λ reply. TellsPage sort.now part.now (drop part.now.skip kept.now) reply) }
{
    let rows = behind(kept, part.skip);
    let views = views_of(alloc, &part.projection, rows)?;
    let state = state_after_rows(alloc, sort, part, rows)?;
    Ok(Reply::Listed { views, state })
}

fn page_or_none(alloc: Global, sort: &Sort, part: &Part, kept: &[Row]) -> Reply
    requires part { IsPart part.now }
    ensures { Lists sort.now part.now (drop part.now.skip kept.now) result }
{
    match page_of(alloc, sort, part, kept) {
        Ok(reply) => reply,
        Err(_) => Reply::NoMemory { accepted: 0 },
    }
}

/// What find makes of all that was searched for.
fn listed(alloc: Global, item: Item, sought: Search, progress: Progress, part: Part) -> Moved
    requires part { IsPart part }
    ensures { EndsSo item (Lists sought.sort part (drop part.skip progress.kept.items)) result }
{
    let reply = page_or_none(alloc, &sought.sort, &part, progress.kept.as_slice());
    Moved::Ends { item, reply }
}

/// A step of find.
pub(crate) fn list<K: Keeper>(
    alloc: Global,
    store: &mut Store<K>,
    by: u64,
    coll: &CollName,
    sought: Search,
    progress: Progress,
    part: Part,
) -> Moved
    requires known { by < opened_in store.old.journal }
    requires searchable { IsSearchable sought progress }
    requires part { IsPart part }
    requires keep { sought.keep ≡ keep_of (paging part) }
    ensures steps { Steps by (K.failed store.old.keeper) (K.failed store.new.keeper) (State.Listing sought progress part) store.old.journal store.new.journal result }
    ensures leads { Promises store.old.start coll.now by store.old.journal store.new.journal (State.Listing sought progress part) result }
    ensures base { SameBase store.old store.new }
    ensures grows { Grows (Some by) store.old.journal store.new.journal }
    ensures faults { K.failed store.old.keeper ≤ K.failed store.new.keeper }
    ensures work { K.called store.new.keeper ≤ K.called store.old.keeper + 1 }
    ensures lawful { IsLawful store.new }
{
    match search(alloc, store, by, coll, &sought, progress) {
        Searched::More { item, progress } => Moved::Goes {
            item,
            state: State::Listing {
                search: sought,
                progress,
                part,
            },
        },
        Searched::Whole { item, progress } => listed(alloc, item, sought, progress, part),
        Searched::Stopped { item, reply } => Moved::Ends { item, reply },
        Searched::NoMemory => Moved::NoMemory,
    }
}
