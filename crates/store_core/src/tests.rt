// Writes through a store over a keeper in memory: where told calls of the keeper fail, and where the numbers end.
ghost use Rattle.std.specs.Prelude.{◌≡◌, ◌<◌, ◌-◌, ◌^◌, Option, Some, IfOk, IfSome};
ghost use Rattle.shred_cols.specs.Row.{Version, id_of};
ghost use Rattle.col_keeper.specs.Tables.{IsShort, KeepsLimits};
ghost use Rattle.store_core.specs.Journal.{new_doc, IsMadeOfRead};
ghost use Rattle.store_core.specs.Tries.{IsRead};

use crate::entry::Change;
use crate::open::OpenFault;
use crate::outcome::WriteOutcome;
use crate::store::Store;
use col_keeper::{Keeper, limits_bound_ids};
use doc_limits::check;
use doc_paths::CollName;
use json_text::read_value;
use json_tree::Doc;
use keeper_mem::MemKeeper;
use std::alloc::Global;
use std::test::Fail;

// The document of a text, where it breaks no limit.
fn doc_of(alloc: Global, text: &str) -> Result<Option<Doc>, Fail>
    ensures { IfOk result (λ r. IfSome r (λ d. KeepsLimits d × IsShort (id_of d))) }
{
    let value = read_value(alloc, text.as_bytes())?;
    if !value.has_id_member() {
        return Ok(None);
    }
    if value.has_dollar_name() {
        return Ok(None);
    }
    let Ok(()) = check(&value) else {
        return Ok(None);
    };
    limits_bound_ids();
    Ok(Some(Doc::of_value(alloc, value)?))
}

// The insertion of a document, or its putting over the one that was read.
fn change_of(doc: Doc, read: Option<u64>) -> Change
    ensures read { IsRead result read }
    ensures new { new_doc result ≡ Some doc }
    ensures made { (found : Option Version) → IsMadeOfRead result read found }
{
    match read {
        Some(_) => Change::Replace { doc },
        None => Change::Insert { doc },
    }
}

// What a session of its own is answered that writes a document.
fn written(
    alloc: Global,
    store: &mut Store<MemKeeper>,
    coll: &CollName,
    text: &str,
    read: Option<u64>,
) -> Result<Option<WriteOutcome>, Fail> {
    let Ok(session) = store.open_session(alloc) else {
        return Ok(None);
    };
    let Some(doc) = doc_of(alloc, text)? else {
        return Ok(None);
    };
    let id = doc.id().try_copy(alloc)?;
    let change = change_of(doc, read);
    Ok(Some(store.write(alloc, session, coll, &id, read, change)))
}

// A store over a keeper whose listed calls fail.
fn opened(alloc: Global, fails: Vec<u64>, last: u64, names: &[CollName]) -> Option<Store<MemKeeper>>
    requires { last < 2 ^ 63 - 1 }
{
    match Store::open(alloc, MemKeeper::new(alloc, fails, last), names) {
        Ok(store) => Some(store),
        Err(
            OpenFault::KeeperFault {
                keeper: _keeper,
                before: _before,
                after: _after,
            },
        ) => None,
        Err(OpenFault::TooMany { keeper: _keeper }) => None,
        Err(OpenFault::NoMemory { keeper: _keeper }) => None,
    }
}

// A write of a text where that number was read, and its answer.
type Step<'a> = (&'a str, Option<u64>, WriteOutcome);

// The place of the first write that isn't answered so.
fn first_wrong(
    alloc: Global,
    store: &mut Store<MemKeeper>,
    coll: &CollName,
    steps: &[Step<'_>],
) -> Result<Option<usize>, Fail> {
    for i in 0..steps.len() {
        let answer = written(alloc, store, coll, steps[i].0, steps[i].1)?;
        if answer != Some(steps[i].2) {
            return Ok(Some(i));
        }
    }
    Ok(None)
}

const A1: &str = "{\"_id\":\"a\",\"n\":1}";

const A2: &str = "{\"_id\":\"a\",\"n\":2}";

const B: &str = "{\"_id\":\"b\"}";

// The third call of the keeper fails: the first lists, the second makes the collection.
#[test]
fn a_failed_write_has_its_entry(rt: HostRuntime) -> Result<(), Fail> {
    let alloc = rt.alloc();
    let names = [CollName::read(alloc, "c")?];
    let Some(mut store) = opened(alloc, Vec::from_array(alloc, [3])?, 0, &names) else {
        panic!(rt; "not opened");
    };
    let steps = [
        (
            A1,
            None,
            WriteOutcome::Fault {
                at: 1,
                before: 0,
                after: 1,
            },
        ),
        (A1, None, WriteOutcome::Written { at: 3, tx: 1 }),
        (
            A2,
            None,
            WriteOutcome::Lost {
                at: 5,
                found: Some(1),
            },
        ),
        (
            A2,
            Some(9),
            WriteOutcome::Lost {
                at: 6,
                found: Some(1),
            },
        ),
        (A2, Some(1), WriteOutcome::Written { at: 7, tx: 2 }),
        (B, Some(1), WriteOutcome::Lost { at: 9, found: None }),
    ];
    let wrong = first_wrong(alloc, &mut store, &names[0], &steps);
    let (writes, len, size) = (store.writes(), store.journal_len(), store.journal_size());
    let keeper = store.into_keeper();
    assert_eq!(rt; wrong?, None);
    assert_eq!(rt; writes, 2);
    assert_eq!(rt; len, 9);
    assert_eq!(rt; size, 9 * 64 + 2 * 17);
    assert_eq!(rt; keeper.faults(), 1);
    Ok(())
}

// The last number that a write has is 2^63 - 2.
#[test]
fn numbers_end(rt: HostRuntime) -> Result<(), Fail> {
    let alloc = rt.alloc();
    let names = [CollName::read(alloc, "c")?];
    let last = 9_223_372_036_854_775_805;
    let Some(mut store) = opened(alloc, Vec::new(alloc), last, &names) else {
        panic!(rt; "not opened");
    };
    let steps = [
        (
            A1,
            None,
            WriteOutcome::Written {
                at: 1,
                tx: last + 1,
            },
        ),
        (A2, Some(last + 1), WriteOutcome::VersionsSpent { at: 3 }),
        (B, None, WriteOutcome::VersionsSpent { at: 4 }),
    ];
    let wrong = first_wrong(alloc, &mut store, &names[0], &steps);
    let len = store.journal_len();
    let _keeper = store.into_keeper();
    assert_eq!(rt; wrong?, None);
    assert_eq!(rt; len, 4);
    Ok(())
}
