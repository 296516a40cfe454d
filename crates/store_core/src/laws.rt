// Laws of journals that grow: the function does nothing, and its clauses are the laws.
ghost use Rattle.std.specs.Prelude.{◌≡◌, ◌≢◌, ℕ, ◌≤◌, ◌<◌, List, ◌++◌, length, take, drop, slice_get, true, Option, Some};
ghost use Rattle.std.specs.List.{list_any};
ghost use Rattle.json_tree.specs.Tree.{Tree};
ghost use Rattle.shred_cols.specs.Row.{Version};
ghost use Rattle.col_keeper.specs.Tables.{Name, AreApart};
ghost use Rattle.store_core.specs.State.{State, IsOld, version, number_at};
ghost use Rattle.store_core.specs.Journal.{IsJournal, replay, state_at};
ghost use Rattle.store_core.specs.Numbers.{touches, last_number};
ghost use Rattle.store_core.specs.declared.entry.Change.{Change as Changes};
ghost use Rattle.store_core.specs.declared.entry.Entry.TheVariants.{Changed};
ghost use Rattle.store_core.specs.declared.entry.Entry.{Entry};

/// The state at a point, the entry at a place and the journal up to there stay as they are when entries are appended.
pub fn points_stay()
    ensures states { (start : State) (journal more : List Entry) (n : ℕ) → n ≤ length journal → state_at start (journal ++ more) n ≡ state_at start journal n }
    ensures entries { (journal more : List Entry) (n : ℕ) → n < length journal → slice_get (journal ++ more) n ≡ slice_get journal n }
    ensures journals { (start : State) (journal more : List Entry) → IsJournal start (journal ++ more) → IsJournal start journal }
{}

/// No change is lost: each change of a document has as the number before it that of the last change of it, or the number
/// that stood there at the beginning where none changed it, or none where the document isn't there.
pub fn changes_follow()
    ensures { (start : State) (journal : List Entry) (place by : ℕ) (coll : Name) (id : Tree) (change : Changes) (before : Option ℕ) (tx : ℕ)
        → IsJournal start journal → AreApart start.collections → slice_get journal place ≡ Some (Changed by coll id change before tx)
        → before ≡ last_number coll id (number_at start coll id) (take place journal) }
{}

/// The number under an id is that of the last entry that touches it. So where a version stood at a point, and another
/// number stands at the end, or none, an entry since then touches it.
pub fn entries_tell_numbers()
    ensures told { (start : State) (journal : List Entry) (coll : Name) (id : Tree) → IsJournal start journal → AreApart start.collections → number_at (replay start journal) coll id ≡ last_number coll id (number_at start coll id) journal }
    ensures touched { (start : State) (journal : List Entry) (place : ℕ) → IsJournal start journal → AreApart start.collections → (coll : Name) (id : Tree) (v : Version)
        → version (state_at start journal place) coll id ≡ Some v → number_at (replay start journal) coll id ≢ Some v.tx → list_any (touches coll id) (drop place journal) ≡ true }
{}

/// A number is given once: where the number that stood at a point still stands at the end, so does the document.
pub fn numbers_are_given_once()
    ensures { (start : State) (journal : List Entry) (place : ℕ) → IsJournal start journal → AreApart start.collections → (coll : Name) (id : Tree) (v w : Version) → IsOld start
        → version (state_at start journal place) coll id ≡ Some v → version (replay start journal) coll id ≡ Some w → w.tx ≡ v.tx → w ≡ v }
{}
