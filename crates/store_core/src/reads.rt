// Looks at ids, pages of rows, and the list of the collections.
ghost use Rattle.std.specs.Prelude.{◌≡◌, ◌+◌, ◌<◌, ◌≤◌, IfSome};
ghost use Rattle.std.specs.Option.{option_copied};
ghost use Rattle.store_core.specs.Counts.{opened_in};
ghost use Rattle.store_core.specs.Store.{IsLawful, SameBase};
ghost use Rattle.store_core.specs.Outcomes.{Looks, Pages, Lists};
ghost use Rattle.store_core.specs.Growth.{Grows};

use crate::enter::enter_fault;
use crate::outcome::{Listed, Looked, Paged};
use crate::store::Store;
use col_keeper::{KeepFault, Keeper, Listing, Walked};
use doc_paths::CollName;
use json_tree::{DocId, ids_are_ordered};
use shred_cols::Probe;
use std::alloc::Global;

/// So many rows a page has at most.
const PAGE: usize = 64;

impl<K: Keeper> Store<K> {
    /// The row of an id. A failed call is entered where a session is given.
    pub fn look(&mut self, alloc: Global, by: Option<u64>, coll: &CollName, id: &DocId) -> Looked
        requires known { IfSome by (λ k. k < opened_in self.old.journal) }
        ensures answers { Looks K.failed by coll.now id.now self.old self.new result }
        ensures grows { Grows by self.old.journal self.new.journal }
        ensures base { SameBase self.old self.new }
        ensures work { K.called self.new.keeper ≤ K.called self.old.keeper + 1 }
        ensures faults { K.failed self.old.keeper ≤ K.failed self.new.keeper }
        ensures lawful { IsLawful self.new }
    {
        let looked = self.look_once(alloc, by, coll, id);
        let _len = self.journal_len();
        looked
    }

    fn look_once(&mut self, alloc: Global, by: Option<u64>, coll: &CollName, id: &DocId) -> Looked
        requires known { IfSome by (λ k. k < opened_in self.old.journal) }
        ensures answers { Looks K.failed by coll.now id.now self.old self.new result }
        ensures base { SameBase self.old self.new }
        ensures work { K.called self.new.keeper ≤ K.called self.old.keeper + 1 }
        ensures faults { K.failed self.old.keeper ≤ K.failed self.new.keeper }
    {
        ids_are_ordered();
        id.value();
        let at = self.journal.len() as u64;
        if self.journal.reserve(1).is_err() {
            return Looked::NoMemory;
        }
        let before = self.keeper.faults();
        match self.keeper.get(alloc, coll, id) {
            Ok(row) => Looked::Row { at, row },
            Err(KeepFault::NoCollection) => Looked::NoCollection { at },
            Err(KeepFault::Failed) => {
                let after = self.keeper.faults();
                enter_fault(&mut self.journal, &mut self.size, by, before, after);
                Looked::Fault { at, before, after }
            }
            Err(KeepFault::NoMemory) => Looked::NoMemory,
        }
    }

    /// The first rows after an id that meet the probe, at most 64 of them. A failed call is entered where a session
    /// is given.
    pub fn page(
        &mut self,
        alloc: Global,
        by: Option<u64>,
        coll: &CollName,
        probe: &Probe,
        after: Option<&DocId>,
    ) -> Paged
        requires known { IfSome by (λ k. k < opened_in self.old.journal) }
        ensures answers { Pages K.failed by coll.now probe.now (option_copied after.entry) self.old self.new result }
        ensures grows { Grows by self.old.journal self.new.journal }
        ensures base { SameBase self.old self.new }
        ensures work { K.called self.new.keeper ≤ K.called self.old.keeper + 1 }
        ensures faults { K.failed self.old.keeper ≤ K.failed self.new.keeper }
        ensures lawful { IsLawful self.new }
    {
        let paged = self.page_once(alloc, by, coll, probe, after);
        let _len = self.journal_len();
        paged
    }

    fn page_once(
        &mut self,
        alloc: Global,
        by: Option<u64>,
        coll: &CollName,
        probe: &Probe,
        after: Option<&DocId>,
    ) -> Paged
        requires known { IfSome by (λ k. k < opened_in self.old.journal) }
        ensures answers { Pages K.failed by coll.now probe.now (option_copied after.entry) self.old self.new result }
        ensures base { SameBase self.old self.new }
        ensures work { K.called self.new.keeper ≤ K.called self.old.keeper + 1 }
        ensures faults { K.failed self.old.keeper ≤ K.failed self.new.keeper }
    {
        let at = self.journal.len() as u64;
        if self.journal.reserve(1).is_err() {
            return Paged::NoMemory;
        }
        let before = self.keeper.faults();
        match self.keeper.walk(alloc, coll, probe, after, PAGE) {
            Ok(Walked { rows, end }) => Paged::Rows { at, rows, end },
            Err(KeepFault::NoCollection) => Paged::NoCollection { at },
            Err(KeepFault::Failed) => {
                let now = self.keeper.faults();
                enter_fault(&mut self.journal, &mut self.size, by, before, now);
                Paged::Fault {
                    at,
                    before,
                    after: now,
                }
            }
            Err(KeepFault::NoMemory) => Paged::NoMemory,
        }
    }

    /// The names of the collections in order of creation. A failed call is entered where a session is given.
    pub fn names(&mut self, alloc: Global, by: Option<u64>) -> Listed
        requires known { IfSome by (λ k. k < opened_in self.old.journal) }
        ensures answers { Lists K.failed by self.old self.new result }
        ensures grows { Grows by self.old.journal self.new.journal }
        ensures base { SameBase self.old self.new }
        ensures work { K.called self.new.keeper ≤ K.called self.old.keeper + 1 }
        ensures faults { K.failed self.old.keeper ≤ K.failed self.new.keeper }
        ensures lawful { IsLawful self.new }
    {
        let listed = self.list_once(alloc, by);
        let _len = self.journal_len();
        listed
    }

    fn list_once(&mut self, alloc: Global, by: Option<u64>) -> Listed
        requires known { IfSome by (λ k. k < opened_in self.old.journal) }
        ensures answers { Lists K.failed by self.old self.new result }
        ensures base { SameBase self.old self.new }
        ensures work { K.called self.new.keeper ≤ K.called self.old.keeper + 1 }
        ensures faults { K.failed self.old.keeper ≤ K.failed self.new.keeper }
    {
        let at = self.journal.len() as u64;
        if self.journal.reserve(1).is_err() {
            return Listed::NoMemory;
        }
        let before = self.keeper.faults();
        match self.keeper.list(alloc) {
            Ok(Listing { names, last_tx: _ }) => Listed::Names { at, names },
            Err(KeepFault::Failed) => {
                let after = self.keeper.faults();
                enter_fault(&mut self.journal, &mut self.size, by, before, after);
                Listed::Fault { at, before, after }
            }
            Err(KeepFault::NoMemory) => Listed::NoMemory,
            Err(KeepFault::NoCollection) => unreachable!(),
        }
    }
}
