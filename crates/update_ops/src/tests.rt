// Updates of documents, and refused ones, worked out from the table of operators.
use crate::tables::{NEW, TABLES};
use crate::{UpdateFault, Updates};
use doc_limits::Broken;
use json_text::{canon, read_value};
use json_tree::Doc;
use std::alloc::Global;
use std::test::Fail;

pub(crate) const MOMENT: i64 = 1_700_000_000_001;

// ---- texts of faults and documents

fn joined(alloc: Global, parts: &[&str]) -> Result<String, Fail> {
    let mut text = String::new(alloc);
    for part in parts {
        text.push_str(part)?;
    }
    Ok(text)
}

fn shown_broken(alloc: Global, broken: &Broken) -> Result<String, Fail> {
    let limit = broken.limit;
    let bound = broken.bound;
    let found = broken.found;
    Ok(format!(in alloc; "broken {limit} {bound} {found}")?)
}

pub(crate) fn shown(alloc: Global, fault: &UpdateFault) -> Result<String, Fail> {
    match fault {
        UpdateFault::UnknownOperator { name } => joined(alloc, &["unknown ", name.as_str()]),
        UpdateFault::BadOperand { operator, path } => {
            joined(alloc, &["bad ", operator.as_str(), " ", path.as_str()])
        }
        UpdateFault::Overlap { first, second } => {
            joined(alloc, &["overlap ", first.as_str(), " ", second.as_str()])
        }
        UpdateFault::TouchesId => joined(alloc, &["id"]),
        UpdateFault::WrongTarget { path } => joined(alloc, &["target ", path.as_str()]),
        UpdateFault::NumberRange { path } => joined(alloc, &["range ", path.as_str()]),
        UpdateFault::Broken(broken) => shown_broken(alloc, broken),
        UpdateFault::NoMemory => joined(alloc, &["no memory"]),
    }
}

pub(crate) fn document(alloc: Global, text: &str) -> Result<Doc, Fail> {
    let value = read_value(alloc, text.as_bytes())?;
    if !value.has_id_member() {
        return Err(Fail::new("no id"));
    }
    if value.has_dollar_name() {
        return Err(Fail::new("a name with a dollar"));
    }
    Ok(Doc::of_value(alloc, value)?)
}

pub(crate) fn text_of(alloc: Global, doc: &Doc) -> Result<String, Fail> {
    match String::from_utf8(canon(alloc, doc.value())?) {
        Ok(text) => Ok(text),
        Err(_) => Ok(String::new(alloc)),
    }
}

// ---- rows

// Adds a pattern for each number from one up to below another, with the number for `#`, between commas.
fn add_numbered(
    alloc: Global,
    out: &mut String,
    pattern: &str,
    from: usize,
    to: usize,
) -> Result<(), Fail> {
    let (before, behind) = pattern.split_once('#').unwrap_or((pattern, ""));
    for i in from..to {
        if i > from {
            out.push_str(",")?;
        }
        out.push_str(format!(in alloc; "{before}{i}{behind}")?.as_str())?;
    }
    Ok(())
}

// Adds what `FROM TO PATTERN` stands for.
fn add_many(alloc: Global, out: &mut String, spelt: &str) -> Result<(), Fail> {
    let (from, behind) = spelt.split_once(' ').unwrap_or((spelt, ""));
    let (to, pattern) = behind.split_once(' ').unwrap_or((behind, ""));
    match (from.parse::<usize>(), to.parse::<usize>()) {
        (Ok(from), Ok(to)) => add_numbered(alloc, out, pattern, from, to),
        _ => Err(Fail::new("no numbers")),
    }
}

// A text in which `~FROM TO PATTERN~` stands for many patterns.
pub(crate) fn expanded(alloc: Global, text: &str) -> Result<String, Fail> {
    let mut out = String::new(alloc);
    let mut is_many = false;
    for piece in text.split('~') {
        if is_many {
            add_many(alloc, &mut out, piece)?;
        } else {
            out.push_str(piece)?;
        }
        is_many = !is_many;
    }
    Ok(out)
}

// What the copy of an update makes of a document: `same`, the text of the new one, or the fault.
fn made(alloc: Global, update: &str, doc: &Doc, on_insert: bool) -> Result<String, Fail> {
    let update = read_value(alloc, update.as_bytes())?;
    let updates = match Updates::read(alloc, &update) {
        Ok(updates) => updates.try_copy(alloc)?,
        Err(fault) => return shown(alloc, &fault),
    };
    match updates.apply(alloc, doc, MOMENT, on_insert) {
        Ok(applied) if applied.changed => text_of(alloc, &applied.doc),
        Ok(_) => joined(alloc, &["same"]),
        Err(fault) => shown(alloc, &fault),
    }
}

fn holds(alloc: Global, doc: &Doc, row: &str, on_insert: bool) -> Result<bool, Fail> {
    let row = expanded(alloc, row)?;
    match row.as_str().split_once(" => ") {
        Some((update, outcome)) => Ok(made(alloc, update, doc, on_insert)?.as_str() == outcome),
        None => Ok(false),
    }
}

// The rows of a table that don't hold. Its first line is the document.
fn wrong_rows(alloc: Global, table: &str, on_insert: bool) -> Result<String, Fail> {
    let mut wrong = String::new(alloc);
    let (first, rows) = table.split_once('\n').unwrap_or((table, ""));
    let doc = document(alloc, expanded(alloc, first)?.as_str())?;
    for row in rows.split('\n') {
        if !holds(alloc, &doc, row, on_insert)? {
            wrong.push_str(row)?;
        }
    }
    Ok(wrong)
}

#[test]
fn tables_hold(rt: HostRuntime) -> Result<(), Fail> {
    for table in TABLES {
        let wrong = wrong_rows(rt.alloc(), table, false)?;
        assert_eq!(rt; wrong.as_str(), "");
    }
    let wrong = wrong_rows(rt.alloc(), NEW, true)?;
    assert_eq!(rt; wrong.as_str(), "");
    Ok(())
}

#[test]
fn clauses_are_lent(rt: HostRuntime) -> Result<(), Fail> {
    let update = read_value(rt.alloc(), br#"{"$set":{"a":2,"b":3},"$inc":{"c":1}}"#)?;
    let updates = Updates::read(rt.alloc(), &update)?;
    assert_eq!(rt; updates.clauses().len(), 3);
    Ok(())
}
