// One step of a search: a look, and the first so many of what was found so far.
ghost use Rattle.std.specs.Prelude.{◌≡◌, ◌+◌, ◌++◌, ◌<◌, ◌≤◌, length, List, Option, Some, IfOk};
ghost use Rattle.std.specs.Option.{ForSome};
ghost use Rattle.json_tree.specs.Tree.{Tree};
ghost use Rattle.store_core.specs.Counts.{opened_in};
ghost use Rattle.store_core.specs.Store.{IsLawful, SameBase};
ghost use Rattle.store_core.specs.Growth.{Grows};
ghost use Rattle.cmd_tasks.specs.Trace.{Sight};
ghost use Rattle.cmd_tasks.specs.Searches.{bound};
ghost use Rattle.cmd_tasks.specs.Looking.{AreShort};
ghost use Rattle.cmd_tasks.specs.Finding.{are_too_many, AreDocuments, KeepsShort, KeepsFirst, Adds};
ghost use Rattle.cmd_tasks.specs.Searching.{IsSearchable, IsSearching, IsUnended, Searches, Seeks};

use crate::glance::{glance, refuse};
use crate::trace::Item;
use crate::work::{Glance, Progress, Search, Searched};
use col_keeper::Keeper;
use doc_paths::CollName;
use json_tree::DocId;
use reply_env::too_many_to_sort;
use shred_cols::Row;
use std::alloc::Global;
use store_core::Store;
use view_sort::{Sort, ViewFault, first_of_pages_are_first};

/// How many shown documents end a search.
fn bound(sort: &Sort, keep: usize) -> usize
    ensures { result ≡ bound sort.now keep }
{
    if sort.is_empty() { keep } else { 10001 }
}

fn are_too_many(sort: &Sort, shown: usize) -> bool
    ensures { result ≡ are_too_many sort.now shown }
{
    !sort.is_empty() && shown >= 10001
}

/// Rows hold documents.
fn are_documents(rows: &[Row])
    ensures { AreDocuments rows.now }
{
    for row in rows {
        row.doc();
    }
}

/// The rows that were kept, and the page's behind them.
fn joined(kept: Vec<Row>, rows: Vec<Row>) -> Result<Vec<Row>, ViewFault>
    ensures { IfOk result (λ all. all.items ≡ kept.items ++ rows.items) }
{
    if kept.is_empty() {
        return Ok(rows);
    }
    let mut all = kept;
    let mut rows = rows;
    all.append(&mut rows)?;
    Ok(all)
}

/// The first so many of those that were kept and of the page's.
fn first(
    alloc: Global,
    search: &Search,
    kept: Vec<Row>,
    rows: Vec<Row>,
) -> Result<Vec<Row>, ViewFault>
    ensures first { IfOk result (λ first. KeepsFirst search.now.sort search.now.keep kept.items rows.items first.items) }
    ensures short { AreShort kept.items → AreShort rows.items → IfOk result (λ first. AreShort first.items) }
{
    if rows.is_empty() {
        return Ok(kept);
    }
    let mut all = joined(kept, rows)?;
    if search.sort.is_empty() {
        all.truncate(search.keep);
        return Ok(all);
    }
    first_of_pages_are_first();
    search.sort.order(alloc, all, search.keep)
}

/// What a page adds to a search.
fn added(
    alloc: Global,
    search: &Search,
    progress: Progress,
    item: Item,
    rows: Vec<Row>,
    last: Option<DocId>,
) -> Searched
    requires { progress.shown < 10001 }
    ensures adds { Adds search.now progress item rows.items last result }
    ensures short { AreShort progress.kept.items → AreShort rows.items → KeepsShort result }
{
    let shown = progress.shown + rows.len();
    if are_too_many(&search.sort, shown) {
        let reply = refuse(alloc, too_many_to_sort(alloc));
        return Searched::Stopped { item, reply };
    }
    are_documents(&rows);
    let Ok(kept) = first(alloc, search, progress.kept, rows) else {
        return Searched::NoMemory;
    };
    let is_whole = last.is_none() || shown >= bound(&search.sort, search.keep);
    let progress = Progress { last, kept, shown };
    if is_whole {
        Searched::Whole { item, progress }
    } else {
        Searched::More { item, progress }
    }
}

/// The next step of a search: one call of the store.
pub(crate) fn search<K: Keeper>(
    alloc: Global,
    store: &mut Store<K>,
    by: u64,
    coll: &CollName,
    search: &Search,
    progress: Progress,
) -> Searched
    requires known { by < opened_in store.old.journal }
    requires searchable { IsSearchable search.now progress }
    ensures short { AreShort progress.kept.items → KeepsShort result }
    ensures searches { Searches by (K.failed store.old.keeper) (K.failed store.new.keeper) search.now progress store.old.journal store.new.journal result }
    ensures seeks { ForSome store.old.start (λ base. (from : Option Tree) (looks : List Sight) → IsUnended base coll.now from search.now looks → IsSearching base coll.now from search.now progress looks
        → Seeks base coll.now from search.now by store.new.journal looks result) }
    ensures base { SameBase store.old store.new }
    ensures grows { Grows (Some by) store.old.journal store.new.journal }
    ensures faults { K.failed store.old.keeper ≤ K.failed store.new.keeper }
    ensures work { K.called store.new.keeper ≤ K.called store.old.keeper + 1 }
    ensures lawful { IsLawful store.new }
{
    match glance(alloc, store, by, coll, &search.wanted, &progress.last) {
        Glance::Shown { item, rows, last } => added(alloc, search, progress, item, rows, last),
        Glance::Ended { item, reply } => Searched::Stopped { item, reply },
        Glance::NoMemory => Searched::NoMemory,
    }
}
