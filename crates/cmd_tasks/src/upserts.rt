// What a change makes of a document, and what is inserted where none matches.
ghost use Rattle.std.specs.Prelude.{◌≡◌, ◌++◌, ◌∷◌, [], Option, Some, IfOk, IfErr, OnOk, IfSome, false, map};
ghost use Rattle.json_tree.specs.Tree.{Tree};
ghost use Rattle.shred_cols.specs.Row.{id_of};
ghost use Rattle.col_keeper.specs.Tables.{KeepsLimits, IsShort};
ghost use Rattle.filter_tree.specs.View.{filter_tree};
ghost use Rattle.filter_tree.specs.Equalities.{equalities};
ghost use Rattle.update_ops.specs.View.{equality_of};
ghost use Rattle.update_ops.specs.Apply.{Gives, apply};
ghost use Rattle.update_ops.specs.Upsert.{replaced};
ghost use Rattle.update_ops.specs.declared.fault.UpdateFault.TheVariants as faults;
ghost use Rattle.store_core.specs.Journal.{FitsId, new_doc};
ghost use Rattle.store_core.specs.declared.entry.Change.{Change as Written};
ghost use Rattle.store_core.specs.declared.entry.Change.TheVariants as changes;
ghost use Rattle.cmd_tasks.specs.Doing.{updates as by, replaces, upserted, made, change_to};
ghost use Rattle.cmd_tasks.specs.Many.{making_of};

use crate::replacement::Replacement;
use crate::work::Making;
use col_keeper::limits_bound_ids;
use filter_tree::Filter;
use json_tree::{Doc, DocId, same_decides};
use std::alloc::Global;
use store_core::Change;
use update_ops::{
    Applied, Equality, UpdateFault, Updates, ids_are_kept, replaced, upsert_replacement,
};

// ---- what is written in the place of a document

/// The change that writes this new document.
fn update_of(
    alloc: Global,
    updates: &Updates,
    moment: i64,
    doc: Doc,
) -> Result<Option<Change>, UpdateFault>
    ensures ok { IfOk result (λ written. written ≡ Some (changes.Update updates.now moment doc)) }
    ensures err { IfErr result (λ fault. fault ≡ faults.NoMemory) }
{
    match updates.try_copy(alloc) {
        Ok(updates) => Ok(Some(Change::Update {
            updates,
            moment,
            doc,
        })),
        Err(_) => Err(UpdateFault::NoMemory),
    }
}

/// What updates write in the place of a document, if they change it.
fn updated(
    alloc: Global,
    updates: &Updates,
    moment: i64,
    doc: &Doc,
) -> Result<Option<Change>, UpdateFault>
    ensures told { Gives (λ (written : Option Written). written) result (change_to (by updates.now moment) doc.now (apply updates.now doc.now moment false)) }
    ensures fits { IfOk result (λ written. IfSome written (λ c. FitsId (id_of doc.now) (new_doc c))) }
{
    ids_are_kept();
    doc.value();
    match updates.apply(alloc, doc, moment, false) {
        Ok(
            Applied {
                doc: new,
                changed: true,
            },
        ) => update_of(alloc, updates, moment, new),
        Ok(
            Applied {
                doc: _,
                changed: false,
            },
        ) => Ok(None),
        Err(fault) => Err(fault),
    }
}

/// What a replacement writes in the place of a document, if it isn't the same.
fn replaced_by(
    alloc: Global,
    replacement: &Replacement,
    doc: &Doc,
) -> Result<Option<Change>, UpdateFault>
    ensures told { Gives (λ (written : Option Written). written) result (change_to (replaces replacement.now) doc.now (replaced replacement.now doc.now)) }
    ensures fits { IfOk result (λ written. IfSome written (λ c. FitsId (id_of doc.now) (new_doc c))) }
{
    same_decides();
    match replaced(alloc, replacement.value(), doc) {
        Ok(new) => {
            if doc.value().same(new.value()) {
                return Ok(None);
            }
            Ok(Some(Change::Replace { doc: new }))
        }
        Err(fault) => Err(fault),
    }
}

/// What is written in the place of a document, if it is changed.
pub(crate) fn made_of(
    alloc: Global,
    making: &Making,
    doc: &Doc,
) -> Result<Option<Change>, UpdateFault>
    ensures told { Gives (λ (written : Option Written). written) result (change_to (making_of making.now) doc.now (made (making_of making.now) doc.now)) }
    ensures fits { IfOk result (λ written. IfSome written (λ c. FitsId (id_of doc.now) (new_doc c))) }
{
    match making {
        Making::Updates { updates, moment } => updated(alloc, updates, *moment, doc),
        Making::Replacement { document } => replaced_by(alloc, document, doc),
    }
}

// ---- what is inserted where none matches

/// Adds an equality at the end.
fn add<'a>(equalities: &mut Vec<Equality<'a>>, equality: Equality<'a>) -> Result<(), UpdateFault>
    ensures ok { OnOk result (map equality_of equalities.new.items ≡ map equality_of equalities.old.items ++ equality_of equality.entry ∷ []) }
    ensures err { IfErr result (λ fault. fault ≡ faults.NoMemory) }
{
    match equalities.push(equality) {
        Ok(()) => Ok(()),
        Err(_) => Err(UpdateFault::NoMemory),
    }
}

/// The equalities that a filter asks for, as updates take them.
fn equalities_of<'a>(alloc: Global, filter: &'a Filter) -> Result<Vec<Equality<'a>>, UpdateFault>
    ensures ok { IfOk result (λ es. map equality_of es.items ≡ equalities (filter_tree filter.now)) }
    ensures err { IfErr result (λ fault. fault ≡ faults.NoMemory) }
{
    let Ok(asked) = filter.equalities(alloc) else {
        return Err(UpdateFault::NoMemory);
    };
    let mut equalities = Vec::new(alloc);
    for one in &asked {
        let equality = Equality {
            path: one.path,
            operand: one.operand,
        };
        match add(&mut equalities, equality) {
            Ok(()) => {}
            Err(fault) => return Err(fault),
        }
    }
    Ok(equalities)
}

/// What a filter and a change make, where none matches.
fn inserted(alloc: Global, filter: &Filter, making: &Making, id: &DocId) -> Result<Doc, UpdateFault>
    ensures { Gives (λ (d : Tree). d) result (upserted (filter_tree filter.now) (making_of making.now) id.now) }
{
    let equalities = match equalities_of(alloc, filter) {
        Ok(equalities) => equalities,
        Err(fault) => return Err(fault),
    };
    match making {
        Making::Updates { updates, moment } => updates.upsert(alloc, &equalities, *moment, id),
        Making::Replacement { document } => {
            upsert_replacement(alloc, &equalities, document.value(), id)
        }
    }
}

/// The document that is inserted where none matches.
pub(crate) fn upserted_document(
    alloc: Global,
    filter: &Filter,
    making: &Making,
    id: &DocId,
) -> Result<Doc, UpdateFault>
    ensures told { Gives (λ (d : Tree). d) result (upserted (filter_tree filter.now) (making_of making.now) id.now) }
    ensures limits { IfOk result (λ d. KeepsLimits d) }
    ensures short { IfOk result (λ d. IsShort (id_of d)) }
{
    limits_bound_ids();
    match inserted(alloc, filter, making, id) {
        Ok(doc) => {
            doc.value();
            Ok(doc)
        }
        Err(fault) => Err(fault),
    }
}
