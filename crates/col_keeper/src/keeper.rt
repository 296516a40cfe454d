// What a keeper promises, told or not.
ghost use Rattle.std.specs.Prelude.{◌≡◌, ◌≢◌, ◌↔◌, ℕ, ◌-◌, ◌^◌, ◌<◌, ◌≤◌, Option, None, IfOk, IfSome, Err, Result};
ghost use Rattle.std.specs.Option.{option_map, ForSome, option_copied};
ghost use Rattle.outside_io.specs.Causes.{Rose};
ghost use Rattle.outside_io.specs.Calls.{CallsMade, FailsNext, failed_calls, one_more, after_call};
ghost use Rattle.shred_cols.specs.Row.{id_of};
ghost use Rattle.shred_cols.specs.Rows.{with_version, without};
ghost use Rattle.col_keeper.specs.Tables.{Tables, IsTables, IsShort, KeepsLimits, rows_in, names_of, written, created, dropped};
ghost use Rattle.col_keeper.specs.Pages.{IsPage};
ghost use Rattle.col_keeper.specs.Answers.{InsertAnswers, ChangeAnswers, CreateAnswers, DropAnswers, IsInsertAnswer, IsChangeAnswer, GetAnswers, WalkAnswers, StoredAnswers, IsAbove};
ghost use Rattle.col_keeper.specs.declared.answer.KeepFault.{KeepFault};
ghost use Rattle.col_keeper.specs.declared.answer.Kept2.{Kept2};
ghost use Rattle.col_keeper.specs.declared.answer.Made.{Made};
ghost use Rattle.col_keeper.specs.declared.answer.Dropped.{Dropped};

use crate::answer::{Dropped, KeepFault, Kept2, Listing, Made, Stored, Walked};
use doc_paths::CollName;
use json_tree::DocId;
use shred_cols::{Probe, Row};
use std::alloc::Global;

/// Keeps the rows of collections. It may tell its tables, and then the clauses on them say what it does.
pub trait Keeper {
    /// The tables, where they are told.
    ghost tables: { Self → Option Tables };

    /// The count of faults.
    ghost failed: { Self → ℕ };

    /// The count of calls.
    ghost called: { Self → ℕ };

    /// The calls made and those that fail, where a keeper tells them.
    ghost calls: { Self → Option CallsMade } = { λ _. None };

    /// The count of faults. A count that has reached 2^64 - 1 stays there.
    fn faults(&self) -> u64
        ensures count { result ≡ failed self.now }
        ensures sound { ForSome (tables self.now) IsTables }
        ensures told { ForSome (calls self.now) (λ c.
            (failed self.now ≡ failed_calls c) × (called self.now ≡ c.made)) };

    /// The collections in order of creation, and the number of the last write.
    fn list(&mut self, alloc: Global) -> Result<Listing, KeepFault>
        ensures call { called self.new ≡ one_more (called self.old) }
        ensures counted { calls self.new ≡ option_map after_call (calls self.old) }
        ensures grows { failed self.old ≤ failed self.new }
        ensures kept { tables self.new ≡ tables self.old }
        ensures failed { result ≡ Err KeepFault.Failed → Rose (failed self.old) (failed self.new) }
        ensures fails { ForSome (calls self.old) (λ c. (result ≡ Err KeepFault.Failed) ↔ FailsNext c) }
        ensures never { result ≢ Err KeepFault.NoCollection }
        ensures bounded { IfOk result (λ l. l.last_tx < 2 ^ 63 - 1) }
        ensures listed { IfOk result (λ l. ForSome (tables self.old) (λ t.
            (l.names.items ≡ names_of t.collections) × (l.last_tx ≡ t.last))) };

    /// Makes an empty collection, where fewer than `most` live.
    fn create(&mut self, alloc: Global, coll: &CollName, most: u64) -> Made
        ensures call { called self.new ≡ one_more (called self.old) }
        ensures counted { calls self.new ≡ option_map after_call (calls self.old) }
        ensures grows { failed self.old ≤ failed self.new }
        ensures done { result ≡ Made.Done → tables self.new ≡ option_map (created coll.now) (tables self.old) }
        ensures kept { result ≢ Made.Done → tables self.new ≡ tables self.old }
        ensures failed { result ≡ Made.Failed → Rose (failed self.old) (failed self.new) }
        ensures fails { ForSome (calls self.old) (λ c. (result ≡ Made.Failed) ↔ FailsNext c) }
        ensures answers { ForSome (tables self.old) (λ t. CreateAnswers t.collections coll.now most result) };

    /// Drops a collection with its rows.
    fn drop_coll(&mut self, alloc: Global, coll: &CollName) -> Dropped
        ensures call { called self.new ≡ one_more (called self.old) }
        ensures counted { calls self.new ≡ option_map after_call (calls self.old) }
        ensures grows { failed self.old ≤ failed self.new }
        ensures done { result ≡ Dropped.Done → tables self.new ≡ option_map (dropped coll.now) (tables self.old) }
        ensures kept { result ≢ Dropped.Done → tables self.new ≡ tables self.old }
        ensures failed { result ≡ Dropped.Failed → Rose (failed self.old) (failed self.new) }
        ensures fails { ForSome (calls self.old) (λ c. (result ≡ Dropped.Failed) ↔ FailsNext c) }
        ensures answers { ForSome (tables self.old) (λ t. DropAnswers (rows_in coll.now t.collections) result) };

    /// The row of an id.
    fn get(&mut self, alloc: Global, coll: &CollName, id: &DocId) -> Result<Option<Row>, KeepFault>
        ensures call { called self.new ≡ one_more (called self.old) }
        ensures counted { calls self.new ≡ option_map after_call (calls self.old) }
        ensures grows { failed self.old ≤ failed self.new }
        ensures kept { tables self.new ≡ tables self.old }
        ensures failed { result ≡ Err KeepFault.Failed → Rose (failed self.old) (failed self.new) }
        ensures fails { ForSome (calls self.old) (λ c. (result ≡ Err KeepFault.Failed) ↔ FailsNext c) }
        ensures short { IfOk result (λ r. IfSome r (λ row. IsShort (id_of row.doc))) }
        ensures answers { ForSome (tables self.old) (λ t. GetAnswers (rows_in coll.now t.collections) id.now result) };

    /// The first rows after an id that meet the probe, at most `up_to` of them, in order of id.
    fn walk(
        &mut self,
        alloc: Global,
        coll: &CollName,
        probe: &Probe,
        after: Option<&DocId>,
        up_to: usize,
    ) -> Result<Walked, KeepFault>
        requires { 1 ≤ up_to }
        ensures call { called self.new ≡ one_more (called self.old) }
        ensures counted { calls self.new ≡ option_map after_call (calls self.old) }
        ensures grows { failed self.old ≤ failed self.new }
        ensures kept { tables self.new ≡ tables self.old }
        ensures failed { result ≡ Err KeepFault.Failed → Rose (failed self.old) (failed self.new) }
        ensures fails { ForSome (calls self.old) (λ c. (result ≡ Err KeepFault.Failed) ↔ FailsNext c) }
        ensures page { IfOk result (λ w. IsPage (option_copied after.entry) up_to w.rows.items w.end) }
        ensures answers { ForSome (tables self.old) (λ t.
            WalkAnswers (rows_in coll.now t.collections) probe.now (option_copied after.entry) up_to result) };

    /// Writes a row whose id isn't there.
    fn insert_new(&mut self, alloc: Global, coll: &CollName, row: Row) -> Kept2
        requires next { ForSome (tables self.old) (λ t. t.last < row.tx) }
        requires bound { row.tx < 2 ^ 63 - 1 }
        requires short { IsShort (id_of row.doc) }
        requires limits { KeepsLimits row.doc }
        ensures call { called self.new ≡ one_more (called self.old) }
        ensures counted { calls self.new ≡ option_map after_call (calls self.old) }
        ensures grows { failed self.old ≤ failed self.new }
        ensures done { result ≡ Kept2.Done
            → tables self.new ≡ option_map (written coll.now (with_version (id_of row.doc) row) row.tx) (tables self.old) }
        ensures kept { result ≢ Kept2.Done → tables self.new ≡ tables self.old }
        ensures failed { result ≡ Kept2.Failed → Rose (failed self.old) (failed self.new) }
        ensures fails { ForSome (calls self.old) (λ c. (result ≡ Kept2.Failed) ↔ FailsNext c) }
        ensures kinds { IsInsertAnswer result }
        ensures answers { ForSome (tables self.old) (λ t.
            InsertAnswers (rows_in coll.now t.collections) (id_of row.doc) result) };

    /// Writes a row over the one of its id, where that has the number `read`.
    fn replace_if(&mut self, alloc: Global, coll: &CollName, row: Row, read: u64) -> Kept2
        requires next { ForSome (tables self.old) (λ t. t.last < row.tx) }
        requires bound { row.tx < 2 ^ 63 - 1 }
        requires short { IsShort (id_of row.doc) }
        requires limits { KeepsLimits row.doc }
        ensures call { called self.new ≡ one_more (called self.old) }
        ensures counted { calls self.new ≡ option_map after_call (calls self.old) }
        ensures grows { failed self.old ≤ failed self.new }
        ensures done { result ≡ Kept2.Done
            → tables self.new ≡ option_map (written coll.now (with_version (id_of row.doc) row) row.tx) (tables self.old) }
        ensures kept { result ≢ Kept2.Done → tables self.new ≡ tables self.old }
        ensures failed { result ≡ Kept2.Failed → Rose (failed self.old) (failed self.new) }
        ensures fails { ForSome (calls self.old) (λ c. (result ≡ Kept2.Failed) ↔ FailsNext c) }
        ensures kinds { IsChangeAnswer read result }
        ensures answers { ForSome (tables self.old) (λ t.
            ChangeAnswers (rows_in coll.now t.collections) (id_of row.doc) read result) };

    /// Removes the row of an id, where that has the number `read`; the last number is then `tx`.
    fn delete_if(&mut self, alloc: Global, coll: &CollName, id: &DocId, read: u64, tx: u64) -> Kept2
        requires next { ForSome (tables self.old) (λ t. t.last < tx) }
        requires bound { tx < 2 ^ 63 - 1 }
        requires short { IsShort id.now }
        ensures call { called self.new ≡ one_more (called self.old) }
        ensures counted { calls self.new ≡ option_map after_call (calls self.old) }
        ensures grows { failed self.old ≤ failed self.new }
        ensures done { result ≡ Kept2.Done
            → tables self.new ≡ option_map (written coll.now (without id.now) tx) (tables self.old) }
        ensures kept { result ≢ Kept2.Done → tables self.new ≡ tables self.old }
        ensures failed { result ≡ Kept2.Failed → Rose (failed self.old) (failed self.new) }
        ensures fails { ForSome (calls self.old) (λ c. (result ≡ Kept2.Failed) ↔ FailsNext c) }
        ensures kinds { IsChangeAnswer read result }
        ensures answers { ForSome (tables self.old) (λ t.
            ChangeAnswers (rows_in coll.now t.collections) id.now read result) };

    /// The next row after an id, as it is stored.
    fn stored(
        &mut self,
        alloc: Global,
        coll: &CollName,
        after: Option<&DocId>,
    ) -> Result<Option<Stored>, KeepFault>
        ensures call { called self.new ≡ one_more (called self.old) }
        ensures counted { calls self.new ≡ option_map after_call (calls self.old) }
        ensures grows { failed self.old ≤ failed self.new }
        ensures kept { tables self.new ≡ tables self.old }
        ensures failed { result ≡ Err KeepFault.Failed → Rose (failed self.old) (failed self.new) }
        ensures fails { ForSome (calls self.old) (λ c. (result ≡ Err KeepFault.Failed) ↔ FailsNext c) }
        ensures above { IfOk result (λ r. IfSome r (λ s. IsAbove (option_copied after.entry) s.id)) }
        ensures answers { ForSome (tables self.old) (λ t.
            StoredAnswers (rows_in coll.now t.collections) (option_copied after.entry) result) };
}
