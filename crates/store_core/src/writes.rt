// Writes on condition of the number that was read.
ghost use Rattle.std.specs.Prelude.{◌≡◌, ◌+◌, ◌-◌, ◌^◌, ◌<◌, ◌≤◌, ◌++◌, length, Some, vec_len, vec_capacity};
ghost use Rattle.json_text.specs.Print.{capped};
ghost use Rattle.col_keeper.specs.Tables.{IsShort};
ghost use Rattle.store_core.specs.State.{version};
ghost use Rattle.store_core.specs.Journal.{FitsId, IsMadeOfRead, new_doc};
ghost use Rattle.store_core.specs.Counts.{opened_in, text_size};
ghost use Rattle.store_core.specs.Store.{IsLawful, SameBase, AtState, next_of};
ghost use Rattle.store_core.specs.Tries.{IsRead};
ghost use Rattle.store_core.specs.Outcomes.{Writes};
ghost use Rattle.store_core.specs.Growth.{Grows};
ghost use Rattle.store_core.specs.declared.entry.Entry.TheVariants.{Changed};
ghost use Rattle.store_core.specs.declared.outcome.WriteOutcome.TheVariants.{VersionsSpent};

use crate::enter::{enter, enter_fault};
use crate::entry::{Change, Entry};
use crate::keep::{Tried, keep};
use crate::outcome::WriteOutcome;
use crate::store::Store;
use col_keeper::Keeper;
use doc_paths::CollName;
use json_text::text_len;
use json_tree::DocId;
use std::alloc::Global;

/// No write has this number.
const SPENT: u64 = (1 << 63) - 1;

// A change that isn't made.
fn let_change_go(_change: Change) {}

// What isn't entered.
fn let_go(_coll: CollName, _id: DocId, _change: Change) {}

// The length of the text of a change's new document.
fn text_size_of(change: &Change) -> u64
    ensures { result ≡ capped (text_size (new_doc change.now)) }
{
    match change {
        Change::Insert { doc } => text_len(doc.value()),
        Change::Replace { doc } => text_len(doc.value()),
        Change::Update { doc, .. } => text_len(doc.value()),
        Change::Delete => 0,
    }
}

// The entry of a change.
fn changed(
    by: u64,
    coll: CollName,
    id: DocId,
    change: Change,
    before: Option<u64>,
    after: u64,
) -> Entry
    ensures { result ≡ Changed by coll id change before after }
{
    Entry::Changed {
        by,
        coll,
        id,
        change,
        before,
        after,
    }
}

impl<K: Keeper> Store<K> {
    /// Makes a change of the document of an id, where that stands with the number `read`, or isn't there where
    /// none was read.
    pub fn write(
        &mut self,
        alloc: Global,
        by: u64,
        coll: &CollName,
        id: &DocId,
        read: Option<u64>,
        change: Change,
    ) -> WriteOutcome
        requires known { by < opened_in self.old.journal }
        requires read { IsRead change read }
        requires short { IsShort id.now }
        requires new { FitsId id.now (new_doc change) }
        requires made { AtState self.old (λ s. IsMadeOfRead change read (version s coll.now id.now)) }
        ensures answers { Writes K.failed by coll.now id.now read change self.old self.new result }
        ensures spent { next_of self.old ≡ 2 ^ 63 - 1 → result ≡ VersionsSpent (length self.old.journal) }
        ensures grows { Grows (Some by) self.old.journal self.new.journal }
        ensures base { SameBase self.old self.new }
        ensures work { K.called self.new.keeper ≤ K.called self.old.keeper + 1 }
        ensures faults { K.failed self.old.keeper ≤ K.failed self.new.keeper }
        ensures lawful { IsLawful self.new }
    {
        let at = self.journal_len();
        let tx = self.next_tx();
        if tx >= SPENT {
            let_change_go(change);
            return WriteOutcome::VersionsSpent { at };
        }
        let outcome = self.write_once(alloc, by, coll, id, read, change, tx);
        let _len = self.journal_len();
        outcome
    }

    // The same where a number is left, which is the next one.
    fn write_once(
        &mut self,
        alloc: Global,
        by: u64,
        coll: &CollName,
        id: &DocId,
        read: Option<u64>,
        change: Change,
        tx: u64,
    ) -> WriteOutcome
        requires known { by < opened_in self.old.journal }
        requires read { IsRead change read }
        requires short { IsShort id.now }
        requires new { FitsId id.now (new_doc change) }
        requires made { AtState self.old (λ s. IsMadeOfRead change read (version s coll.now id.now)) }
        requires next { tx ≡ next_of self.old }
        requires left { tx < 2 ^ 63 - 1 }
        ensures answers { Writes K.failed by coll.now id.now read change self.old self.new result }
        ensures base { SameBase self.old self.new }
        ensures work { K.called self.new.keeper ≤ K.called self.old.keeper + 1 }
        ensures faults { K.failed self.old.keeper ≤ K.failed self.new.keeper }
    {
        let at = self.journal.len() as u64;
        if self.journal.reserve(1).is_err() {
            let_change_go(change);
            return WriteOutcome::NoMemory;
        }
        let (Ok(name), Ok(key)) = (coll.try_copy(alloc), id.try_copy(alloc)) else {
            let_change_go(change);
            return WriteOutcome::NoMemory;
        };
        let before = self.keeper.faults();
        match keep(&mut self.keeper, alloc, coll, id, read, &change, tx) {
            Tried::Done => {
                let text = text_size_of(&change);
                let entry = changed(by, name, key, change, read, tx);
                enter(&mut self.journal, &mut self.size, entry, text);
                self.writes += 1;
                WriteOutcome::Written { at, tx }
            }
            Tried::Failed => {
                let_go(name, key, change);
                let after = self.keeper.faults();
                enter_fault(&mut self.journal, &mut self.size, Some(by), before, after);
                WriteOutcome::Fault { at, before, after }
            }
            Tried::Differs { found } => {
                let_go(name, key, change);
                WriteOutcome::Lost { at, found }
            }
            Tried::NoCollection => {
                let_go(name, key, change);
                WriteOutcome::NoCollection { at }
            }
            Tried::NoMemory => {
                let_go(name, key, change);
                WriteOutcome::NoMemory
            }
        }
    }
}
