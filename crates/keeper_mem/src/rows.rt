// Writes of rows on a condition, on one table.
ghost use Rattle.std.specs.Prelude.{◌≡◌, ◌≢◌, ◌<◌, Option, Some, None, Result, Ok, Err};
ghost use Rattle.std.specs.Option.{option_map};
ghost use Rattle.shred_cols.specs.Row.{id_of};
ghost use Rattle.shred_cols.specs.Rows.{version_of, with_version, without};
ghost use Rattle.col_keeper.specs.Answers.{InsertAnswers, ChangeAnswers, GetAnswers, IsInsertAnswer, IsChangeAnswer};
ghost use Rattle.col_keeper.specs.declared.answer.Kept2.{Kept2};
ghost use Rattle.col_keeper.specs.declared.answer.KeepFault.{KeepFault};

use col_keeper::{KeepFault, Kept2};
use column_table::Table;
use json_tree::DocId;
use shred_cols::{Row, Steps};
use std::alloc::Global;
use std::marker::Brand;
use std::sync::ledger::{Blank, Ledger};

fn number_from<L: Ledger>(table: &Table, id: &DocId, blank: Blank) -> Option<u64>
    requires name { blank.name ≡ L.name }
    requires parts { blank.parts ≡ L.parts }
    requires some { 0 < L.parts }
    ensures { result ≡ option_map (λ v. v.tx) (version_of id.now table.now.rows) }
{
    let mut steps = Steps::<L>::from_blank(blank);
    match table.row(id, &mut steps) {
        Some(row) => Some(row.tx()),
        None => None,
    }
}

/// The number of the row of an id.
pub(crate) fn number_of(table: &Table, id: &DocId) -> Option<u64>
    ensures { result ≡ option_map (λ v. v.tx) (version_of id.now table.now.rows) }
{
    number_from::<Brand>(table, id, Blank::new(1))
}

fn row_from<L: Ledger>(
    alloc: Global,
    table: &Table,
    id: &DocId,
    blank: Blank,
) -> Result<Option<Row>, KeepFault>
    requires name { blank.name ≡ L.name }
    requires parts { blank.parts ≡ L.parts }
    requires some { 0 < L.parts }
    ensures answers { GetAnswers (Some table.now.rows) id.now result }
    ensures never { result ≢ Err KeepFault.Failed }
{
    let mut steps = Steps::<L>::from_blank(blank);
    let Some(row) = table.row(id, &mut steps) else {
        return Ok(None);
    };
    match row.try_copy(alloc) {
        Ok(copy) => Ok(Some(copy)),
        Err(_) => Err(KeepFault::NoMemory),
    }
}

/// A copy of the row of an id.
pub(crate) fn row_of(alloc: Global, table: &Table, id: &DocId) -> Result<Option<Row>, KeepFault>
    ensures answers { GetAnswers (Some table.now.rows) id.now result }
    ensures never { result ≢ Err KeepFault.Failed }
{
    row_from::<Brand>(alloc, table, id, Blank::new(1))
}

/// Puts a row in whose id isn't there.
pub(crate) fn insert_row(table: &mut Table, row: Row) -> Kept2
    ensures answers { InsertAnswers (Some table.old.rows) (id_of row.doc) result }
    ensures kinds { IsInsertAnswer result }
    ensures done { result ≡ Kept2.Done → table.new.rows ≡ with_version (id_of row.doc) row table.old.rows }
    ensures kept { result ≢ Kept2.Done → table.new.rows ≡ table.old.rows }
    ensures failed { result ≢ Kept2.Failed }
{
    if let Some(tx) = number_of(table, row.id()) {
        return Kept2::Taken { tx };
    }
    if table.reserve().is_err() {
        return Kept2::NoMemory;
    }
    table.insert(row);
    Kept2::Done
}

/// Puts a row over the one of its id, where that has the number `read`.
pub(crate) fn replace_row(table: &mut Table, row: Row, read: u64) -> Kept2
    ensures answers { ChangeAnswers (Some table.old.rows) (id_of row.doc) read result }
    ensures kinds { IsChangeAnswer read result }
    ensures done { result ≡ Kept2.Done → table.new.rows ≡ with_version (id_of row.doc) row table.old.rows }
    ensures kept { result ≢ Kept2.Done → table.new.rows ≡ table.old.rows }
    ensures failed { result ≢ Kept2.Failed }
{
    let Some(tx) = number_of(table, row.id()) else {
        return Kept2::Absent;
    };
    if tx != read {
        return Kept2::Other { tx };
    }
    if table.reserve().is_err() {
        return Kept2::NoMemory;
    }
    table.replace(row);
    Kept2::Done
}

/// Takes the row of an id out, where that has the number `read`.
pub(crate) fn delete_row(table: &mut Table, id: &DocId, read: u64) -> Kept2
    ensures answers { ChangeAnswers (Some table.old.rows) id.now read result }
    ensures kinds { IsChangeAnswer read result }
    ensures done { result ≡ Kept2.Done → table.new.rows ≡ without id.now table.old.rows }
    ensures kept { result ≢ Kept2.Done → table.new.rows ≡ table.old.rows }
    ensures failed { result ≢ Kept2.Failed }
{
    let Some(tx) = number_of(table, id) else {
        return Kept2::Absent;
    };
    if tx != read {
        return Kept2::Other { tx };
    }
    let _row = table.remove(id);
    Kept2::Done
}
