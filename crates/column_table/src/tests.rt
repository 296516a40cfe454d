// A table against the numbers that were put in.
ghost use Rattle.std.specs.Prelude.{◌≡◌, ◌<◌, ◌↔◌, IsTrue, None};
ghost use Rattle.shred_cols.specs.Row.{id_of};
ghost use Rattle.shred_cols.specs.Rows.{version_of};

use crate::table::Table;
use json_text::read_value;
use json_tree::{Doc, DocId, Value};
use shred_cols::{Row, Steps};
use std::alloc::Global;
use std::marker::Brand;
use std::sync::ledger::{Blank, Ledger};
use std::test::Fail;

fn is_free_from<L: Ledger>(table: &Table, id: &DocId, blank: Blank) -> bool
    requires name { blank.name ≡ L.name }
    requires parts { blank.parts ≡ L.parts }
    requires some { 0 < L.parts }
    ensures { IsTrue result ↔ (version_of id.now table.now.rows ≡ None) }
{
    let mut steps = Steps::<L>::from_blank(blank);
    match table.row(id, &mut steps) {
        Some(_) => false,
        None => true,
    }
}

// Whether no row has the id.
fn is_free(table: &Table, id: &DocId) -> bool
    ensures { IsTrue result ↔ (version_of id.now table.now.rows ≡ None) }
{
    is_free_from::<Brand>(table, id, Blank::new(1))
}

// The row of a document with a number as its id.
fn row_of(alloc: Global, number: u64, tx: u64) -> Result<Option<Row>, Fail> {
    let text = format!(in alloc; "{{\"_id\":{number}}}")?;
    let value = read_value(alloc, text.as_bytes())?;
    if !value.has_id_member() {
        return Ok(None);
    }
    if value.has_dollar_name() {
        return Ok(None);
    }
    let doc = Doc::of_value(alloc, value)?;
    Ok(Some(Row::make(alloc, tx, doc)?))
}

// Puts a row in, or over the one of its id.
fn put(table: &mut Table, row: Row) -> Result<(), Fail> {
    table.reserve()?;
    if is_free(table, row.id()) {
        table.insert(row);
    } else {
        table.replace(row);
    }
    Ok(())
}

fn put_number(alloc: Global, table: &mut Table, number: u64, tx: u64) -> Result<(), Fail> {
    match row_of(alloc, number, tx)? {
        Some(row) => put(table, row),
        None => Ok(()),
    }
}

// The ids of the rows in order, each with its number.
fn shown(alloc: Global, table: &Table) -> Result<Vec<(i128, u64)>, Fail> {
    let mut out = Vec::new(alloc);
    let mut rows = table.rows_after(None);
    'rows: while let Some(row) = rows.next() {
        if let Value::Num(n) = row.id().value() {
            out.push((n.units(), row.tx()))?;
        }
    }
    Ok(out)
}

// What 0 to 300 leave, each put in by its own number, of which those divided by 3 are taken out and those
// divided by 5 are replaced by 1,000 then.
fn wanted(alloc: Global) -> Result<Vec<(i128, u64)>, Fail> {
    let mut out = Vec::new(alloc);
    for i in 0..301u64 {
        if i % 3 != 0 {
            let units = i as i128 * 1_000_000_000_000_000_000;
            out.push((units, if i % 5 == 0 { 1_000 } else { i }))?;
        }
    }
    Ok(out)
}

fn take_out(alloc: Global, table: &mut Table, number: u64) -> Result<bool, Fail> {
    match row_of(alloc, number, 0)? {
        Some(row) => Ok(table.remove(row.id()).is_some()),
        None => Ok(false),
    }
}

#[test]
fn rows_stand_in_order(rt: HostRuntime) -> Result<(), Fail> {
    let alloc = rt.alloc();
    for step in [1u64, 300, 10] {
        let mut table = Table::new(alloc);
        for i in 0..301u64 {
            let number = i * step % 301;
            put_number(alloc, &mut table, number, number)?;
        }
        for i in 0..301u64 {
            if i % 3 == 0 {
                assert!(rt; take_out(alloc, &mut table, i)?);
                assert!(rt; !take_out(alloc, &mut table, i)?);
            } else if i % 5 == 0 {
                put_number(alloc, &mut table, i, 1_000)?;
            }
        }
        assert_eq!(rt;
            shown(alloc, &table)?.as_slice(),
            wanted(alloc)?.as_slice(),
            "by {step}"
        );
    }
    Ok(())
}

// Ids that come in order fill their chunks of 64 rows: 301 rows stand in 5.
#[test]
fn ascending_ids_fill_chunks(rt: HostRuntime) -> Result<(), Fail> {
    let alloc = rt.alloc();
    let mut table = Table::new(alloc);
    for number in 0..301u64 {
        put_number(alloc, &mut table, number, number)?;
    }
    assert_eq!(rt; table.chunks.len(), 5usize);
    Ok(())
}
