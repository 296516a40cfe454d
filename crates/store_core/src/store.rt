// The store: a keeper, and the journal since its base.
ghost use Rattle.std.specs.Prelude.{◌≡◌, ◌≢◌, ℕ, ◌+◌, ◌<◌, ◌≤◌, ◌-◌, ◌^◌, [], ◌∷◌, ◌++◌, length, IfOk, OnErr, Some, None};
ghost use Rattle.std.specs.Option.{option_map, ForSome};
ghost use Rattle.json_text.specs.Print.{capped};
ghost use Rattle.col_keeper.specs.Tables.{AreApart};
ghost use Rattle.store_core.specs.State.{tables_of};
ghost use Rattle.store_core.specs.Journal.{replay};
ghost use Rattle.store_core.specs.Counts.{opened_in, writes_in, size_in};
ghost use Rattle.store_core.specs.Store.{IsKept, IsLawful, SameBase, AtState, next_of, told_start};
ghost use Rattle.store_core.specs.declared.entry.Entry.TheVariants.{Opened};

use crate::enter::enter;
use crate::entry::Entry;
use crate::outcome::NoMemory;
use col_keeper::Keeper;
use std::alloc::Global;
use std::marker::Model;
use std::snapshot::Snapshot;

/// A keeper, and the journal of what was done with it since its base. The base takes no bytes.
pub struct Store<K: Keeper> {
    pub(crate) keeper: K,
    pub(crate) base: Snapshot<K>,
    pub(crate) first: u64,
    pub(crate) journal: Vec<Entry>,
    pub(crate) sessions: u64,
    pub(crate) writes: u64,
    pub(crate) size: u64,
}

impl<K: Keeper> Model for Store<K> {
    ghost use Rattle.store_core.specs.Store.{Stored, IsHistory, told_start, stored_code};
    ghost use Rattle.store_core.specs.Counts.{AreCounted};

    ghost Value = { Stored K };

    ghost use Rattle.store_core.specs.contracts.entry.Entry as e;

    ghost coded = { stored_code K.code e.the_row.coded };

    ghost view = { λ s. record { keeper = s.keeper; base = s.base.value; start = told_start K.tables K.failed s.base.value; first = s.first; journal = s.journal.items } };

    ghost invariant = { λ s. IsHistory (told_start K.tables K.failed s.base.value) s.first (K.failed s.base.value) s.journal.items (K.tables s.keeper) (K.failed s.keeper)
        × AreCounted s.journal.items s.sessions s.writes s.size };
}

impl<K: Keeper> Store<K> {
    /// A store whose journal begins at the keeper as it is.
    pub(crate) fn begin(alloc: Global, keeper: K, first: u64) -> Store<K>
        requires next { ForSome (K.tables keeper) (λ t. first ≡ t.last + 1) }
        requires bounds { (1 ≤ first) × (first < 2 ^ 63) }
        ensures keeper { result.keeper ≡ keeper }
        ensures base { result.base ≡ keeper }
        ensures start { result.start ≡ told_start K.tables K.failed keeper }
        ensures first { result.first ≡ first }
        ensures journal { result.journal ≡ [] }
    {
        let _faults = keeper.faults();
        Store {
            base: Snapshot::of(&keeper),
            keeper,
            first,
            journal: Vec::new(alloc),
            sessions: 0,
            writes: 0,
            size: 0,
        }
    }

    /// How many entries the journal has.
    pub fn journal_len(&self) -> u64
        ensures len { result ≡ length self.now.journal }
        ensures kept { IsKept K.tables K.failed self.now }
        ensures lawful { IsLawful self.now }
        ensures apart { ForSome self.now.start (λ b. AreApart b.collections) }
        ensures next { AtState self.now (λ s. s.next ≡ next_of self.now) }
        ensures sessions { AtState self.now (λ s. s.sessions ≡ opened_in self.now.journal) }
        ensures faults { AtState self.now (λ s. s.faults ≤ K.failed self.now.keeper) }
    {
        self.journal.len() as u64
    }

    /// How many documents were changed since the base.
    pub fn writes(&self) -> u64
        ensures { result ≡ writes_in self.now.journal }
    {
        self.writes
    }

    /// 64 for each entry, and the length of the text of each new document.
    pub fn journal_size(&self) -> u64
        ensures { result ≡ capped (size_in self.now.journal) }
    {
        self.size
    }

    /// The number of the first write after the base.
    pub fn base_tx(&self) -> u64
        ensures { result ≡ self.now.first }
    {
        self.first
    }

    // The number of the next write.
    pub(crate) fn next_tx(&self) -> u64
        ensures is { result ≡ next_of self.now }
        ensures bound { result < 2 ^ 63 }
    {
        self.first + self.writes
    }

    /// Gives the keeper back.
    pub fn into_keeper(self) -> K
        ensures keeper { result ≡ self.keeper }
        ensures kept { IsKept K.tables K.failed self }
        ensures tables { K.tables result ≡ option_map (λ b. tables_of (replay b self.journal)) self.start }
    {
        let Store {
            keeper,
            base: _base,
            first: _first,
            journal: _journal,
            sessions: _sessions,
            writes: _writes,
            size: _size,
        } = self;
        keeper
    }

    /// Opens a session, and answers its number.
    pub fn open_session(&mut self, _alloc: Global) -> Result<u64, NoMemory>
        ensures opened { IfOk result (λ k. (k ≡ opened_in self.old.journal) × (self.new ≡ record self.old { journal = self.old.journal ++ Opened k ∷ [] })) }
        ensures known { IfOk result (λ k. k < opened_in self.new.journal) }
        ensures err { OnErr result (self.new ≡ self.old) }
        ensures lawful { IsLawful self.new }
    {
        let opened = self.enter_session();
        let _len = self.journal_len();
        opened
    }

    // Appends the entry of a session.
    fn enter_session(&mut self) -> Result<u64, NoMemory>
        ensures opened { IfOk result (λ k. (k ≡ opened_in self.old.journal) × (self.new ≡ record self.old { journal = self.old.journal ++ Opened k ∷ [] })) }
        ensures err { OnErr result (self.new ≡ self.old) }
    {
        if self.journal.reserve(1).is_err() {
            return Err(NoMemory);
        }
        let session = self.sessions;
        enter(
            &mut self.journal,
            &mut self.size,
            Entry::Opened { session },
            0,
        );
        let _len = self.journal.len();
        self.sessions = session + 1;
        Ok(session)
    }
}
