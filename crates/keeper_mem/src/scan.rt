// Rows of a table in the order of ids.
ghost use Rattle.std.specs.Prelude.{◌≡◌, ◌≢◌, Err, ◌≤◌, Option, Some, false};
ghost use Rattle.std.specs.Option.{option_copied};
ghost use Rattle.shred_cols.specs.Rows.{Rows};
ghost use Rattle.col_keeper.specs.Asked.{meets_document};
ghost use Rattle.col_keeper.specs.Answers.{WalkAnswers, StoredAnswers};
ghost use Rattle.col_keeper.specs.declared.answer.KeepFault.{KeepFault};

use col_keeper::{KeepFault, Stored, Walked, probes_ask_documents};
use column_table::Table;
use json_tree::DocId;
use shred_cols::{Probe, Row};
use std::alloc::Global;

/// Whether a row's columns meet the probe.
fn row_meets(row: &Row, probe: &Probe) -> bool
    ensures { result ≡ meets_document probe.now row.now.doc }
{
    probes_ask_documents();
    row.columns().meets(probe)
}

/// The first rows after an id that meet the probe, at most `up_to` of them. One more is looked for, to know
/// whether there is one.
pub(crate) fn scan(
    alloc: Global,
    table: &Table,
    probe: &Probe,
    after: Option<&DocId>,
    up_to: usize,
) -> Result<Walked, KeepFault>
    requires { 1 ≤ up_to }
    ensures answers { WalkAnswers (Some table.now.rows) probe.now (option_copied after.entry) up_to result }
    ensures never { result ≢ Err KeepFault.Failed }
{
    let mut rows = Vec::new(alloc);
    let mut next = table.rows_after(after);
    'rows: while let Some(row) = next.next() {
        if !row_meets(row, probe) {
            continue;
        }
        if rows.len() == up_to {
            return Ok(Walked { rows, end: false });
        }
        let Ok(copy) = row.try_copy(alloc) else {
            return Err(KeepFault::NoMemory);
        };
        match rows.push(copy) {
            Ok(()) => {}
            Err(_) => return Err(KeepFault::NoMemory),
        }
    }
    Ok(Walked { rows, end: true })
}

/// The next row after an id, as it is stored.
pub(crate) fn next_stored(
    alloc: Global,
    table: &Table,
    after: Option<&DocId>,
) -> Result<Option<Stored>, KeepFault>
    ensures answers { StoredAnswers (Some table.now.rows) (option_copied after.entry) result }
    ensures never { result ≢ Err KeepFault.Failed }
{
    let Some(row) = table.next_after(after) else {
        return Ok(None);
    };
    match (
        row.id().try_copy(alloc),
        row.doc().try_copy(alloc),
        row.columns().try_copy(alloc),
    ) {
        (Ok(id), Ok(doc), Ok(entries)) => Ok(Some(Stored {
            id,
            tx: row.tx(),
            doc,
            entries,
        })),
        _ => Err(KeepFault::NoMemory),
    }
}
