// The keeper itself: each call is counted, and then looks into the collections.
ghost use Rattle.std.specs.Prelude.{◌≡◌, ◌≤◌, ◌<◌, ◌-◌, ◌^◌, [], Some, true, IsTrue, ◌↔◌};
ghost use Rattle.outside_io.specs.Calls.{failed_calls, one_more, after_call, FailsNext};
ghost use Rattle.outside_io.specs.Causes.{Rose};
ghost use Rattle.col_keeper.specs.declared.answer.Kept2.{Kept2};

use crate::maps::{
    Tables, create_in, delete_in, drop_in, get_in, insert_in, names_in, replace_in, stored_in,
    walk_in,
};
use col_keeper::{Dropped, KeepFault, Keeper, Kept2, Listing, Made, Stored, Walked};
use doc_paths::CollName;
use indexmap::IndexMap;
use json_tree::{DocId, ids_are_ordered};
use outside_io::Calls;
use shred_cols::{Probe, Row};
use std::alloc::Global;
use std::marker::Model;

/// Keeps collections in memory, and tells its tables.
#[derive(Drop)]
pub struct MemKeeper {
    collections: Tables,
    last_tx: u64,
    calls: Calls,
}

impl Model for MemKeeper {
    ghost use Rattle.keeper_mem.specs.Held.{MemSeen, held_code, collections_of};
    ghost use Rattle.col_keeper.specs.Tables.{IsTables};

    ghost Value = { MemSeen };

    ghost coded = { held_code };

    ghost view = { λ k. record { tables = record { collections = collections_of k.collections.entries; last = k.last_tx }; calls = k.calls } };

    ghost invariant = { λ k. IsTables (record { collections = collections_of k.collections.entries; last = k.last_tx }) };
}

/// Counts a call, and answers whether it fails.
fn fails(calls: &mut Calls) -> bool
    ensures counted { calls.new ≡ after_call calls.old }
    ensures call { calls.new.made ≡ one_more calls.old.made }
    ensures grows { failed_calls calls.old ≤ failed_calls calls.new }
    ensures failed { result ≡ true → Rose (failed_calls calls.old) (failed_calls calls.new) }
    ensures next { IsTrue result ↔ FailsNext calls.old }
{
    calls.fails_next()
}

/// The answer of a failed call, which lets the row go.
fn fail(_row: Row) -> Kept2
    ensures { result ≡ Kept2.Failed }
{
    Kept2::Failed
}

fn is_done(answer: &Kept2) -> bool
    ensures { IsTrue result ↔ (answer.now ≡ Kept2.Done) }
{
    matches!(answer, Kept2::Done)
}

impl MemKeeper {
    /// No collection. The calls whose numbers, from 1, are listed fail.
    pub fn new(alloc: Global, fails: Vec<u64>, last_tx: u64) -> MemKeeper
        requires { last_tx < 2 ^ 63 - 1 }
        ensures tables { result.tables ≡ record { collections = []; last = last_tx } }
        ensures calls { result.calls ≡ record { fails = fails.items; made = 0 } }
    {
        MemKeeper {
            collections: IndexMap::new(alloc),
            last_tx,
            calls: Calls::new(fails),
        }
    }
}

impl Keeper for MemKeeper {
    ghost tables = { λ k. Some k.tables };

    ghost failed = { λ k. failed_calls k.calls };

    ghost called = { λ k. k.calls.made };

    ghost calls = { λ k. Some k.calls };

    fn faults(&self) -> u64 {
        self.calls.failed()
    }

    fn list(&mut self, alloc: Global) -> Result<Listing, KeepFault> {
        if fails(&mut self.calls) {
            return Err(KeepFault::Failed);
        }
        match names_in(&self.collections, alloc) {
            Ok(names) => Ok(Listing {
                names,
                last_tx: self.last_tx,
            }),
            Err(_) => Err(KeepFault::NoMemory),
        }
    }

    fn create(&mut self, alloc: Global, coll: &CollName, most: u64) -> Made {
        if fails(&mut self.calls) {
            return Made::Failed;
        }
        create_in(&mut self.collections, alloc, coll, most)
    }

    fn drop_coll(&mut self, _alloc: Global, coll: &CollName) -> Dropped {
        if fails(&mut self.calls) {
            return Dropped::Failed;
        }
        drop_in(&mut self.collections, coll)
    }

    fn get(
        &mut self,
        alloc: Global,
        coll: &CollName,
        id: &DocId,
    ) -> Result<Option<Row>, KeepFault> {
        if fails(&mut self.calls) {
            return Err(KeepFault::Failed);
        }
        get_in(&self.collections, alloc, coll, id)
    }

    fn walk(
        &mut self,
        alloc: Global,
        coll: &CollName,
        probe: &Probe,
        after: Option<&DocId>,
        up_to: usize,
    ) -> Result<Walked, KeepFault> {
        if fails(&mut self.calls) {
            return Err(KeepFault::Failed);
        }
        walk_in(&self.collections, alloc, coll, probe, after, up_to)
    }

    fn insert_new(&mut self, _alloc: Global, coll: &CollName, row: Row) -> Kept2 {
        if fails(&mut self.calls) {
            return fail(row);
        }
        ids_are_ordered();
        let _id = row.id();
        let tx = row.tx();
        let answer = insert_in(&mut self.collections, coll, row);
        if !is_done(&answer) {
            return answer;
        }
        self.last_tx = tx;
        Kept2::Done
    }

    fn replace_if(&mut self, _alloc: Global, coll: &CollName, row: Row, read: u64) -> Kept2 {
        if fails(&mut self.calls) {
            return fail(row);
        }
        ids_are_ordered();
        let _id = row.id();
        let tx = row.tx();
        let answer = replace_in(&mut self.collections, coll, row, read);
        if !is_done(&answer) {
            return answer;
        }
        self.last_tx = tx;
        Kept2::Done
    }

    fn delete_if(
        &mut self,
        _alloc: Global,
        coll: &CollName,
        id: &DocId,
        read: u64,
        tx: u64,
    ) -> Kept2 {
        if fails(&mut self.calls) {
            return Kept2::Failed;
        }
        let answer = delete_in(&mut self.collections, coll, id, read);
        if !is_done(&answer) {
            return answer;
        }
        self.last_tx = tx;
        Kept2::Done
    }

    fn stored(
        &mut self,
        alloc: Global,
        coll: &CollName,
        after: Option<&DocId>,
    ) -> Result<Option<Stored>, KeepFault> {
        if fails(&mut self.calls) {
            return Err(KeepFault::Failed);
        }
        stored_in(&self.collections, alloc, coll, after)
    }
}
