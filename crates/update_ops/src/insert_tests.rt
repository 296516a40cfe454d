// Replacements, and what is inserted where nothing matches.
use crate::tables::{INSERTED, REPLACED};
use crate::tests::{MOMENT, document, expanded, shown, text_of};
use crate::{Equality, UpdateFault, Updates, is_replacement, replaced, upsert_replacement};
use doc_paths::Path;
use json_text::read_value;
use json_tree::{Doc, DocId, Items, Value};
use std::alloc::Global;
use std::test::Fail;

fn outcome(alloc: Global, made: Result<Doc, UpdateFault>) -> Result<String, Fail> {
    match made {
        Ok(doc) => text_of(alloc, &doc),
        Err(fault) => shown(alloc, &fault),
    }
}

// ---- replacements

fn replacing(alloc: Global, replacement: &str, doc: &Doc) -> Result<String, Fail> {
    let replacement = read_value(alloc, replacement.as_bytes())?;
    if !is_replacement(&replacement) {
        return Err(Fail::new("no replacement"));
    }
    outcome(alloc, replaced(alloc, &replacement, doc))
}

fn replaces(alloc: Global, doc: &Doc, row: &str) -> Result<bool, Fail> {
    let row = expanded(alloc, row)?;
    match row.as_str().split_once(" => ") {
        Some((replacement, wanted)) => {
            Ok(replacing(alloc, replacement, doc)?.as_str() == wanted)
        }
        None => Ok(false),
    }
}

// The rows of a table that don't hold. Its first line is the document.
fn wrong_replacements(alloc: Global, table: &str) -> Result<String, Fail> {
    let mut wrong = String::new(alloc);
    let (first, rows) = table.split_once('\n').unwrap_or((table, ""));
    let doc = document(alloc, first)?;
    for row in rows.split('\n') {
        if !replaces(alloc, &doc, row)? {
            wrong.push_str(row)?;
        }
    }
    Ok(wrong)
}

// ---- what is inserted

fn paths_of(alloc: Global, text: &str) -> Result<Vec<Path>, Fail> {
    let mut paths = Vec::new(alloc);
    for word in text.split(' ') {
        if !word.is_empty() {
            paths.push(Path::read(alloc, word)?)?;
        }
    }
    Ok(paths)
}

fn equalities_of<'a>(
    alloc: Global,
    paths: &'a [Path],
    operands: &'a Items,
) -> Result<Vec<Equality<'a>>, Fail> {
    let mut equalities = Vec::new(alloc);
    for i in 0..paths.len() {
        let path = &paths[i];
        match operands.get(i) {
            Some(operand) => equalities.push(Equality { path, operand })?,
            None => return Err(Fail::new("no operand")),
        }
    }
    Ok(equalities)
}

// What is inserted by an update or a replacement, with the generated id `true`.
fn inserted(alloc: Global, equalities: &[Equality<'_>], change: &str) -> Result<String, Fail> {
    let generated = DocId::of_value(alloc, &Value::Bool(true))?;
    let change = read_value(alloc, change.as_bytes())?;
    if is_replacement(&change) {
        let made = upsert_replacement(alloc, equalities, &change, &generated);
        return outcome(alloc, made);
    }
    match Updates::read(alloc, &change) {
        Ok(updates) => outcome(alloc, updates.upsert(alloc, equalities, MOMENT, &generated)),
        Err(fault) => shown(alloc, &fault),
    }
}

// What `PATHS ; OPERANDS ; CHANGE` inserts.
fn inserted_by(alloc: Global, spelt: &str) -> Result<String, Fail> {
    let (paths, behind) = spelt.split_once(" ; ").unwrap_or((spelt, ""));
    let (operands, change) = behind.split_once(" ; ").unwrap_or((behind, ""));
    let paths = paths_of(alloc, paths)?;
    match read_value(alloc, operands.as_bytes())? {
        Value::List(operands) => {
            let equalities = equalities_of(alloc, paths.as_slice(), &operands)?;
            inserted(alloc, equalities.as_slice(), change)
        }
        _ => Err(Fail::new("no list")),
    }
}

fn inserts(alloc: Global, row: &str) -> Result<bool, Fail> {
    let row = expanded(alloc, row)?;
    match row.as_str().split_once(" => ") {
        Some((spelt, wanted)) => Ok(inserted_by(alloc, spelt)?.as_str() == wanted),
        None => Ok(false),
    }
}

fn wrong_inserts(alloc: Global, table: &str) -> Result<String, Fail> {
    let mut wrong = String::new(alloc);
    for row in table.split('\n') {
        if !inserts(alloc, row)? {
            wrong.push_str(row)?;
        }
    }
    Ok(wrong)
}

#[test]
fn new_documents_are_made(rt: HostRuntime) -> Result<(), Fail> {
    for table in REPLACED {
        let wrong = wrong_replacements(rt.alloc(), table)?;
        assert_eq!(rt; wrong.as_str(), "");
    }
    let wrong = wrong_inserts(rt.alloc(), INSERTED)?;
    assert_eq!(rt; wrong.as_str(), "");
    Ok(())
}
