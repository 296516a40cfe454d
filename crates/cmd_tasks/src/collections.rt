// The steps of the commands on collections: one call of the store.
ghost use Rattle.std.specs.Prelude.{◌≡◌, ◌⊎◌, ◌+◌, ◌<◌, ◌≤◌, Some, None, [], IfOk};
ghost use Rattle.col_keeper.specs.Tables.{Name};
ghost use Rattle.store_core.specs.Counts.{opened_in};
ghost use Rattle.store_core.specs.Store.{IsLawful, SameBase};
ghost use Rattle.store_core.specs.Growth.{Grows};
ghost use Rattle.cmd_tasks.specs.Served.{TellsNames};
ghost use Rattle.cmd_tasks.specs.Looking.{IsLooked};
ghost use Rattle.cmd_tasks.specs.Moves.{Steps, Promises};

use crate::glance::refuse;
use crate::steps::failed;
use crate::trace::Item;
use crate::work::{Moved, State};
use col_keeper::Keeper;
use doc_paths::CollName;
use json_tree::{Text, TreeFault};
use reply_env::{Reply, too_many_collections};
use std::alloc::Global;
use store_core::{Listed, Shaped, Store};

/// A look at nothing.
fn mark(alloc: Global, at: u64) -> Item
    ensures { IsLooked result at None None [] }
{
    Item::Looked {
        at,
        after: None,
        up_to: None,
        shown: Vec::new(alloc),
    }
}

/// The creation of a collection.
pub(crate) fn create<K: Keeper>(
    alloc: Global,
    store: &mut Store<K>,
    by: u64,
    coll: &CollName,
) -> Moved
    requires known { by < opened_in store.old.journal }
    ensures steps { Steps by (K.failed store.old.keeper) (K.failed store.new.keeper) State.Creating store.old.journal store.new.journal result }
    ensures leads { Promises store.old.start coll.now by store.old.journal store.new.journal State.Creating result }
    ensures base { SameBase store.old store.new }
    ensures grows { Grows (Some by) store.old.journal store.new.journal }
    ensures faults { K.failed store.old.keeper ≤ K.failed store.new.keeper }
    ensures work { K.called store.new.keeper ≤ K.called store.old.keeper + 1 }
    ensures lawful { IsLawful store.new }
{
    store.journal_len();
    match store.create(alloc, by, coll) {
        Shaped::Done { at } => Moved::Ends {
            item: Item::Wrote { at },
            reply: Reply::Done,
        },
        Shaped::Same { at } => Moved::Ends {
            item: mark(alloc, at),
            reply: Reply::Done,
        },
        Shaped::TooMany { at, found: _ } => Moved::Ends {
            item: mark(alloc, at),
            reply: refuse(alloc, too_many_collections(alloc)),
        },
        Shaped::Fault { at, before, after } => failed(alloc, at, before, after),
        Shaped::NoMemory => Moved::NoMemory,
    }
}

/// The deletion of a collection.
pub(crate) fn drop_collection<K: Keeper>(
    alloc: Global,
    store: &mut Store<K>,
    by: u64,
    coll: &CollName,
) -> Moved
    requires known { by < opened_in store.old.journal }
    ensures steps { Steps by (K.failed store.old.keeper) (K.failed store.new.keeper) State.Dropping store.old.journal store.new.journal result }
    ensures leads { Promises store.old.start coll.now by store.old.journal store.new.journal State.Dropping result }
    ensures base { SameBase store.old store.new }
    ensures grows { Grows (Some by) store.old.journal store.new.journal }
    ensures faults { K.failed store.old.keeper ≤ K.failed store.new.keeper }
    ensures work { K.called store.new.keeper ≤ K.called store.old.keeper + 1 }
    ensures lawful { IsLawful store.new }
{
    store.journal_len();
    match store.drop_coll(alloc, by, coll) {
        Shaped::Done { at } => Moved::Ends {
            item: Item::Wrote { at },
            reply: Reply::Done,
        },
        Shaped::Same { at } => Moved::Ends {
            item: mark(alloc, at),
            reply: Reply::Done,
        },
        Shaped::TooMany { .. } => unreachable!(),
        Shaped::Fault { at, before, after } => failed(alloc, at, before, after),
        Shaped::NoMemory => Moved::NoMemory,
    }
}

/// The names of the collections as texts.
fn texts_of(alloc: Global, names: &[CollName]) -> Result<Vec<Text>, TreeFault>
    ensures { IfOk result (λ texts. texts.items ≡ names.now) }
{
    let mut texts = Vec::with_capacity(alloc, names.len())?;
    'names: for name in names {
        texts.push(Text::of_str(alloc, name.text())?)?;
    }
    Ok(texts)
}

/// The reply that tells the names.
fn naming(alloc: Global, names: &[CollName]) -> Reply
    ensures { TellsNames names.now result ⊎ (result ≡ Reply.NoMemory 0) }
{
    match texts_of(alloc, names) {
        Ok(names) => Reply::Names { names },
        Err(_) => Reply::NoMemory { accepted: 0 },
    }
}

/// The names of the collections; this is of no collection.
pub(crate) fn name_all<K: Keeper>(alloc: Global, store: &mut Store<K>, by: u64) -> Moved
    requires known { by < opened_in store.old.journal }
    ensures steps { Steps by (K.failed store.old.keeper) (K.failed store.new.keeper) State.Naming store.old.journal store.new.journal result }
    ensures leads { (coll : Name) → Promises store.old.start coll by store.old.journal store.new.journal State.Naming result }
    ensures base { SameBase store.old store.new }
    ensures grows { Grows (Some by) store.old.journal store.new.journal }
    ensures faults { K.failed store.old.keeper ≤ K.failed store.new.keeper }
    ensures work { K.called store.new.keeper ≤ K.called store.old.keeper + 1 }
    ensures lawful { IsLawful store.new }
{
    store.journal_len();
    match store.names(alloc, Some(by)) {
        Listed::Names { at, names } => {
            let reply = naming(alloc, names.as_slice());
            Moved::Ends {
                item: mark(alloc, at),
                reply,
            }
        }
        Listed::Fault { at, before, after } => failed(alloc, at, before, after),
        Listed::NoMemory => Moved::NoMemory,
    }
}
