// A keeper that tells nothing: each of its calls fails.
ghost use Rattle.std.specs.Prelude.{◌≡◌, ◌≤◌, None, IfOk, IfSome};
ghost use Rattle.outside_io.specs.Calls.{one_more};
ghost use Rattle.outside_io.specs.Causes.{Rose};
ghost use Rattle.shred_cols.specs.Row.{id_of};
ghost use Rattle.col_keeper.specs.Tables.{IsShort, KeepsLimits};
ghost use Rattle.col_keeper.specs.declared.answer.Kept2.{Kept2};

use crate::answer::{Dropped, KeepFault, Kept2, Listing, Made, Stored, Walked};
use crate::keeper::Keeper;
use crate::laws::limits_bound_ids;
use doc_limits::check;
use doc_paths::CollName;
use json_text::read_value;
use json_tree::{Doc, DocId};
use shred_cols::{Probe, Row};
use std::alloc::Global;
use std::test::Fail;

#[derive(Drop)]
struct Broken {
    calls: u64,
}

// One call more, which fails.
fn count(calls: &mut u64)
    ensures counted { calls.new ≡ one_more calls.old }
    ensures rose { Rose calls.old calls.new }
    ensures grows { calls.old ≤ calls.new }
{
    *calls = calls.saturating_add(1);
}

// Lets a row go.
fn refuse(_row: Row) -> Kept2
    ensures { result ≡ Kept2.Failed }
{
    Kept2::Failed
}

impl Keeper for Broken {
    ghost tables = { λ _. None };

    ghost failed = { λ k. k.calls };

    ghost called = { λ k. k.calls };

    fn faults(&self) -> u64 {
        self.calls
    }

    fn list(&mut self, _alloc: Global) -> Result<Listing, KeepFault> {
        count(&mut self.calls);
        Err(KeepFault::Failed)
    }

    fn create(&mut self, _alloc: Global, _coll: &CollName, _most: u64) -> Made {
        count(&mut self.calls);
        Made::Failed
    }

    fn drop_coll(&mut self, _alloc: Global, _coll: &CollName) -> Dropped {
        count(&mut self.calls);
        Dropped::Failed
    }

    fn get(
        &mut self,
        _alloc: Global,
        _coll: &CollName,
        _id: &DocId,
    ) -> Result<Option<Row>, KeepFault> {
        count(&mut self.calls);
        Err(KeepFault::Failed)
    }

    fn walk(
        &mut self,
        _alloc: Global,
        _coll: &CollName,
        _probe: &Probe,
        _after: Option<&DocId>,
        _up_to: usize,
    ) -> Result<Walked, KeepFault> {
        count(&mut self.calls);
        Err(KeepFault::Failed)
    }

    fn insert_new(&mut self, _alloc: Global, _coll: &CollName, row: Row) -> Kept2 {
        count(&mut self.calls);
        refuse(row)
    }

    fn replace_if(&mut self, _alloc: Global, _coll: &CollName, row: Row, _read: u64) -> Kept2 {
        count(&mut self.calls);
        refuse(row)
    }

    fn delete_if(
        &mut self,
        _alloc: Global,
        _coll: &CollName,
        _id: &DocId,
        _read: u64,
        _tx: u64,
    ) -> Kept2 {
        count(&mut self.calls);
        Kept2::Failed
    }

    fn stored(
        &mut self,
        _alloc: Global,
        _coll: &CollName,
        _after: Option<&DocId>,
    ) -> Result<Option<Stored>, KeepFault> {
        count(&mut self.calls);
        Err(KeepFault::Failed)
    }
}

// The row of a document that breaks no limit, with the number 1.
fn row_of(alloc: Global, text: &str) -> Result<Option<Row>, Fail>
    ensures { IfOk result (λ r. IfSome r (λ row. (row.tx ≡ 1) × KeepsLimits row.doc × IsShort (id_of row.doc))) }
{
    let value = read_value(alloc, text.as_bytes())?;
    if !value.has_id_member() {
        return Ok(None);
    }
    if value.has_dollar_name() {
        return Ok(None);
    }
    let Ok(()) = check(&value) else {
        return Ok(None);
    };
    limits_bound_ids();
    let doc = Doc::of_value(alloc, value)?;
    Ok(Some(Row::make(alloc, 1, doc)?))
}

#[test]
fn a_keeper_that_tells_nothing_may_fail_at_each_call(rt: HostRuntime) -> Result<(), Fail> {
    let alloc = rt.alloc();
    let mut keeper = Broken { calls: 0 };
    let coll = CollName::read(alloc, "c")?;
    let Some(row) = row_of(alloc, "{\"_id\":\"a\"}")? else {
        panic!(rt; "no row");
    };
    assert!(rt; keeper.list(alloc).is_err());
    assert_eq!(rt; keeper.create(alloc, &coll, 100), Made::Failed);
    assert_eq!(rt; keeper.drop_coll(alloc, &coll), Dropped::Failed);
    assert!(rt; keeper.get(alloc, &coll, row.id()).is_err());
    assert!(rt; keeper.walk(alloc, &coll, &Probe::All, None, 1).is_err());
    assert!(rt; keeper.stored(alloc, &coll, None).is_err());
    assert_eq!(rt; keeper.insert_new(alloc, &coll, row), Kept2::Failed);
    assert_eq!(rt; keeper.faults(), 7);
    Ok(())
}
