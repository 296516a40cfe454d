// The opening of a store.
ghost use Rattle.std.specs.Prelude.{◌≡◌, ◌≢◌, ◌≤◌, ◌<◌, ◌+◌, ◌-◌, ◌^◌, ◌++◌, ℕ, [], IfOk, IfErr, List, length, take, drop};
ghost use Rattle.std.specs.Option.{option_map, ForSome};
ghost use Rattle.outside_io.specs.Causes.{Rose};
ghost use Rattle.col_keeper.specs.Tables.{names_of};
ghost use Rattle.store_core.specs.State.{start_of};
ghost use Rattle.store_core.specs.Opening.{is_among, missing, with_names, opened_with, would_live, keeper_in, Refuses, Prepares};

use crate::outcome::NoMemory;
use crate::shapes::MOST;
use crate::store::Store;
use col_keeper::{KeepFault, Keeper, Listing, Made};
use doc_paths::CollName;
use std::alloc::Global;

/// Why a store isn't opened, with the keeper.
pub enum OpenFault<K> {
    /// A call of the keeper failed: its counts of faults before and after.
    KeeperFault { keeper: K, before: u64, after: u64 },
    /// Over 100 collections would live, of which none was made; or the keeper has no room for one, whatever it tells.
    TooMany { keeper: K },
    NoMemory { keeper: K },
}

/// What came of the creation of the missing collections.
#[derive(Clone, Copy, Debug, PartialEq, Eq, Drop)]
enum Missing {
    Made,
    Full,
    Failed,
    NoMemory,
}

/// What came of a keeper's preparation for a store; the number of its first write.
#[derive(Clone, Copy, Debug, PartialEq, Eq, Drop)]
enum Prepared {
    At { first: u64 },
    TooMany,
    Failed,
    NoMemory,
}

// The names that aren't listed, each once, in order.
fn missing_of(
    alloc: Global,
    listed: &[CollName],
    names: &[CollName],
) -> Result<Vec<CollName>, NoMemory>
    ensures { IfOk result (λ found. found.items ≡ missing listed.now [] names.now) }
{
    let mut found: Vec<CollName> = Vec::new(alloc);
    'names: for place in 0..names.len() {
        let name = &names[place];
        if listed.contains(name) {
            continue;
        }
        if found.contains(name) {
            continue;
        }
        let Ok(copy) = name.try_copy(alloc) else {
            return Err(NoMemory);
        };
        let Ok(()) = found.push(copy) else {
            return Err(NoMemory);
        };
    }
    Ok(found)
}

// Makes the collections, in order.
fn create_missing<K: Keeper>(keeper: &mut K, alloc: Global, names: &[CollName]) -> Missing
    ensures made { result ≡ Missing.Made → K.tables keeper.new ≡ option_map (with_names names.now) (K.tables keeper.old) }
    ensures begun { (n : ℕ) × (K.tables keeper.new ≡ option_map (with_names (take n names.now)) (K.tables keeper.old)) }
    ensures full { result ≡ Missing.Full → ForSome (K.tables keeper.old) (λ t. 100 < length t.collections + length names.now) }
    ensures grows { K.failed keeper.old ≤ K.failed keeper.new }
    ensures failed { result ≡ Missing.Failed → Rose (K.failed keeper.old) (K.failed keeper.new) }
{
    'names: for place in 0..names.len() {
        match keeper.create(alloc, &names[place], MOST) {
            Made::Done => continue,
            Made::There => continue,
            Made::Full { found: _ } => return Missing::Full,
            Made::Failed => return Missing::Failed,
            Made::NoMemory => return Missing::NoMemory,
        }
    }
    Missing::Made
}

// Makes the missing collections, where so many may live.
fn prepare_listed<K: Keeper>(
    keeper: &mut K,
    alloc: Global,
    listed: &[CollName],
    last_tx: u64,
    names: &[CollName],
) -> Prepared
    requires listed { ForSome (K.tables keeper.old) (λ t. (listed.now ≡ names_of t.collections) × (last_tx ≡ t.last)) }
    requires bound { last_tx < 2 ^ 63 - 1 }
    ensures prepares { Prepares K.tables names.now keeper.old keeper.new result }
    ensures grows { K.failed keeper.old ≤ K.failed keeper.new }
    ensures failed { result ≡ Prepared.Failed → Rose (K.failed keeper.old) (K.failed keeper.new) }
{
    let Ok(missing) = missing_of(alloc, listed, names) else {
        return Prepared::NoMemory;
    };
    if listed.len().saturating_add(missing.len()) > MOST as usize {
        return Prepared::TooMany;
    }
    match create_missing(keeper, alloc, missing.as_slice()) {
        Missing::Made => Prepared::At { first: last_tx + 1 },
        Missing::Full => Prepared::TooMany,
        Missing::Failed => Prepared::Failed,
        Missing::NoMemory => Prepared::NoMemory,
    }
}

// Lists the collections, and makes the missing ones.
fn prepare<K: Keeper>(keeper: &mut K, alloc: Global, names: &[CollName]) -> Prepared
    ensures prepares { Prepares K.tables names.now keeper.old keeper.new result }
    ensures grows { K.failed keeper.old ≤ K.failed keeper.new }
    ensures failed { result ≡ Prepared.Failed → Rose (K.failed keeper.old) (K.failed keeper.new) }
{
    match keeper.list(alloc) {
        Ok(
            Listing {
                names: listed,
                last_tx,
            },
        ) => prepare_listed(keeper, alloc, listed.as_slice(), last_tx, names),
        Err(KeepFault::Failed) => Prepared::Failed,
        Err(KeepFault::NoMemory) => Prepared::NoMemory,
        Err(KeepFault::NoCollection) => unreachable!(),
    }
}

impl<K: Keeper> Store<K> {
    /// Opens a store over a keeper: one call lists its collections, and one call makes each of the names that isn't
    /// among them, in order; a repeated name changes nothing.
    pub fn open(alloc: Global, keeper: K, names: &[CollName]) -> Result<Store<K>, OpenFault<K>>
        ensures begins { IfOk result (λ s. (s.journal ≡ []) × (s.keeper ≡ s.base)) }
        ensures tables { IfOk result (λ s. K.tables s.base ≡ option_map (opened_with names.now) (K.tables keeper)) }
        ensures start { IfOk result (λ s. s.start ≡ option_map (start_of (K.failed s.base)) (K.tables s.base)) }
        ensures first { IfOk result (λ s. ForSome (K.tables keeper) (λ t. (s.first ≡ t.last + 1) × (would_live names.now t ≤ 100))) }
        ensures faults { IfOk result (λ s. K.failed keeper ≤ K.failed s.base) }
        ensures refused { IfErr result (Refuses K.tables K.failed names.now keeper) }
        ensures grows { IfErr result (λ fault. K.failed keeper ≤ K.failed (keeper_in fault)) }
    {
        let mut keeper = keeper;
        let before = keeper.faults();
        match prepare(&mut keeper, alloc, names) {
            Prepared::At { first } => Ok(Store::begin(alloc, keeper, first)),
            Prepared::TooMany => Err(OpenFault::TooMany { keeper }),
            Prepared::Failed => {
                let after = keeper.faults();
                Err(OpenFault::KeeperFault {
                    keeper,
                    before,
                    after,
                })
            }
            Prepared::NoMemory => Err(OpenFault::NoMemory { keeper }),
        }
    }
}
