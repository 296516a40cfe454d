// The creation and dropping of collections.
ghost use Rattle.std.specs.Prelude.{◌≡◌, ◌+◌, ◌<◌, ◌≤◌, Some};
ghost use Rattle.store_core.specs.Counts.{opened_in};
ghost use Rattle.store_core.specs.Store.{IsLawful, SameBase};
ghost use Rattle.store_core.specs.Outcomes.{Creates, Drops};
ghost use Rattle.store_core.specs.Growth.{Grows};

use crate::enter::{enter, enter_fault};
use crate::entry::Entry;
use crate::outcome::Shaped;
use crate::store::Store;
use col_keeper::{Dropped, Keeper, Made};
use doc_paths::CollName;
use std::alloc::Global;

/// So many collections live at most.
pub(crate) const MOST: u64 = 100;

impl<K: Keeper> Store<K> {
    /// Makes an empty collection.
    pub fn create(&mut self, alloc: Global, by: u64, coll: &CollName) -> Shaped
        requires known { by < opened_in self.old.journal }
        ensures answers { Creates K.failed by coll.now self.old self.new result }
        ensures grows { Grows (Some by) self.old.journal self.new.journal }
        ensures base { SameBase self.old self.new }
        ensures work { K.called self.new.keeper ≤ K.called self.old.keeper + 1 }
        ensures faults { K.failed self.old.keeper ≤ K.failed self.new.keeper }
        ensures lawful { IsLawful self.new }
    {
        let shaped = self.create_once(alloc, by, coll);
        let _len = self.journal_len();
        shaped
    }

    fn create_once(&mut self, alloc: Global, by: u64, coll: &CollName) -> Shaped
        requires known { by < opened_in self.old.journal }
        ensures answers { Creates K.failed by coll.now self.old self.new result }
        ensures base { SameBase self.old self.new }
        ensures work { K.called self.new.keeper ≤ K.called self.old.keeper + 1 }
        ensures faults { K.failed self.old.keeper ≤ K.failed self.new.keeper }
    {
        let at = self.journal.len() as u64;
        if self.journal.reserve(1).is_err() {
            return Shaped::NoMemory;
        }
        let Ok(name) = coll.try_copy(alloc) else {
            return Shaped::NoMemory;
        };
        let before = self.keeper.faults();
        match self.keeper.create(alloc, coll, MOST) {
            Made::Done => {
                let entry = Entry::Created { by, coll: name };
                enter(&mut self.journal, &mut self.size, entry, 0);
                Shaped::Done { at }
            }
            Made::There => Shaped::Same { at },
            Made::Full { found } => Shaped::TooMany { at, found },
            Made::Failed => {
                let after = self.keeper.faults();
                enter_fault(&mut self.journal, &mut self.size, Some(by), before, after);
                Shaped::Fault { at, before, after }
            }
            Made::NoMemory => Shaped::NoMemory,
        }
    }

    /// Drops a collection with its documents.
    pub fn drop_coll(&mut self, alloc: Global, by: u64, coll: &CollName) -> Shaped
        requires known { by < opened_in self.old.journal }
        ensures answers { Drops K.failed by coll.now self.old self.new result }
        ensures grows { Grows (Some by) self.old.journal self.new.journal }
        ensures base { SameBase self.old self.new }
        ensures work { K.called self.new.keeper ≤ K.called self.old.keeper + 1 }
        ensures faults { K.failed self.old.keeper ≤ K.failed self.new.keeper }
        ensures lawful { IsLawful self.new }
    {
        let shaped = self.drop_once(alloc, by, coll);
        let _len = self.journal_len();
        shaped
    }

    fn drop_once(&mut self, alloc: Global, by: u64, coll: &CollName) -> Shaped
        requires known { by < opened_in self.old.journal }
        ensures answers { Drops K.failed by coll.now self.old self.new result }
        ensures base { SameBase self.old self.new }
        ensures work { K.called self.new.keeper ≤ K.called self.old.keeper + 1 }
        ensures faults { K.failed self.old.keeper ≤ K.failed self.new.keeper }
    {
        let at = self.journal.len() as u64;
        if self.journal.reserve(1).is_err() {
            return Shaped::NoMemory;
        }
        let Ok(name) = coll.try_copy(alloc) else {
            return Shaped::NoMemory;
        };
        let before = self.keeper.faults();
        match self.keeper.drop_coll(alloc, coll) {
            Dropped::Done => {
                let entry = Entry::Dropped { by, coll: name };
                enter(&mut self.journal, &mut self.size, entry, 0);
                Shaped::Done { at }
            }
            Dropped::Absent => Shaped::Same { at },
            Dropped::Failed => {
                let after = self.keeper.faults();
                enter_fault(&mut self.journal, &mut self.size, Some(by), before, after);
                Shaped::Fault { at, before, after }
            }
            Dropped::NoMemory => Shaped::NoMemory,
        }
    }
}
