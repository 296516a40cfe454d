// The entries of places, one column after another.
ghost use Rattle.std.specs.Prelude.{◌≡◌, ◌≢◌, ◌⊎◌, OnOk, IfOk, length, map};
ghost use Rattle.std.specs.List.{Contains};
ghost use Rattle.json_tree.specs.View.{tree};
ghost use Rattle.shred_cols.specs.Entry.{kept_of, key_of, elements_in};
ghost use Rattle.shred_cols.specs.declared.entry.Entry.TheVariants as v;
ghost use Rattle.shred_cols.specs.Adds.{Adds, Each, OfColumn, OfPlace, OfKept, SizeOf, Rest, kind_of};

use crate::entry::Entry;
use crate::fault::ShredFault;
use crate::forms::Kept;
use crate::keep::text_key;
use crate::place::Place;
use doc_paths::Path;
use json_tree::{Text, Value};
use std::alloc::Global;

fn add(entries: &mut Vec<Entry>, entry: Entry) -> Result<(), ShredFault>
    ensures { OnOk result (Adds entries.old.items entries.new.items (λ e. e ≡ entry)) }
{
    entries.push(entry)?;
    Ok(())
}

fn add_text(
    alloc: Global,
    path: &Path,
    text: &Text,
    entries: &mut Vec<Entry>,
) -> Result<(), ShredFault>
    ensures { OnOk result (Adds entries.old.items entries.new.items (λ e. e ≡ v.Text path.now (key_of text.now))) }
{
    add(
        entries,
        Entry::Text(path.try_copy(alloc)?, text_key(alloc, text)?),
    )
}

fn dated(alloc: Global, path: &Path, date: &i64) -> Result<Entry, ShredFault>
    ensures { IfOk result (λ e. e ≡ v.Date path.now date.now) }
{
    Ok(Entry::Date(path.try_copy(alloc)?, *date))
}

// the length of a list, where it is within 32 bits
fn add_size(
    alloc: Global,
    path: &Path,
    len: usize,
    entries: &mut Vec<Entry>,
) -> Result<(), ShredFault>
    ensures { OnOk result (Adds entries.old.items entries.new.items (λ e. SizeOf path.now len e)) }
{
    match u32::try_from(len) {
        Ok(len) => add(entries, Entry::Size(path.try_copy(alloc)?, len)),
        Err(_) => Ok(()),
    }
}

/// The column of what is said of a value of its kind alone, or 0.
fn kind(value: &Value) -> u8
    ensures { result ≡ kind_of (tree value.now) }
{
    match value {
        Value::Null => 8,
        Value::Bool(_) => 4,
        Value::Num(_) => 5,
        Value::Text(_) => 6,
        Value::Date(_) => 7,
        Value::List(_) => 2,
        Value::Object(_) => 0,
    }
}

fn add_rest(
    alloc: Global,
    path: &Path,
    value: &Value,
    entries: &mut Vec<Entry>,
) -> Result<(), ShredFault>
    ensures { OnOk result (Adds entries.old.items entries.new.items (λ e. Rest path.now (tree value.now) e)) }
{
    match value {
        Value::Null => add(entries, Entry::Null(path.try_copy(alloc)?)),
        Value::Bool(b) => add(entries, Entry::Bool(path.try_copy(alloc)?, *b)),
        Value::Num(n) => add(entries, Entry::Num(path.try_copy(alloc)?, *n)),
        Value::Text(text) => add_text(alloc, path, text, entries),
        Value::Date(date) => add(entries, dated(alloc, path, date)?),
        Value::List(items) => add_size(alloc, path, items.len(), entries),
        Value::Object(_) => Ok(()),
    }
}

fn add_has(
    alloc: Global,
    path: &Path,
    kept: &Kept,
    entries: &mut Vec<Entry>,
) -> Result<(), ShredFault>
    ensures { OnOk result (Adds entries.old.items entries.new.items (λ e. e ≡ v.Has path.now kept.now)) }
{
    add(
        entries,
        Entry::Has(path.try_copy(alloc)?, kept.try_copy(alloc)?),
    )
}

fn add_each(
    alloc: Global,
    path: &Path,
    inside: &[Kept],
    entries: &mut Vec<Entry>,
) -> Result<(), ShredFault>
    ensures { OnOk result (Adds entries.old.items entries.new.items (λ e. OfKept path.now inside.now e)) }
{
    for i in 0..inside.len() {
        add_has(alloc, path, &inside[i], entries)?;
    }
    Ok(())
}

fn add_sorted(
    alloc: Global,
    path: &Path,
    inside: &[Kept],
    kept: &Kept,
    entries: &mut Vec<Entry>,
) -> Result<(), ShredFault>
    ensures { OnOk result (Adds entries.old.items entries.new.items (λ e. OfKept path.now inside.now e ⊎ (e ≡ v.Has path.now kept.now))) }
{
    let mut run = Vec::new(alloc);
    add_each(alloc, path, inside, &mut run)?;
    add_has(alloc, path, kept, &mut run)?;
    run.sort_unstable();
    entries.append(&mut run)?;
    Ok(())
}

fn add_kept(alloc: Global, place: &Place, entries: &mut Vec<Entry>) -> Result<(), ShredFault>
    ensures { OnOk result (Adds entries.old.items entries.new.items (λ e. OfColumn 3 place.now e)) }
{
    if place.inside().is_empty() {
        return add_has(alloc, place.path(), place.kept(), entries);
    }
    add_sorted(alloc, place.path(), place.inside(), place.kept(), entries)
}

fn add_column(
    alloc: Global,
    column: u8,
    place: &Place,
    entries: &mut Vec<Entry>,
) -> Result<(), ShredFault>
    ensures { OnOk result (Adds entries.old.items entries.new.items (λ e. OfColumn column place.now e)) }
{
    if column == 1 {
        return add(entries, Entry::Exists(place.path().try_copy(alloc)?));
    }
    if column == 3 {
        return add_kept(alloc, place, entries);
    }
    if kind(place.value()) == column {
        return add_rest(alloc, place.path(), place.value(), entries);
    }
    Ok(())
}

fn add_places(
    alloc: Global,
    column: u8,
    places: &[Place],
    entries: &mut Vec<Entry>,
) -> Result<(), ShredFault>
    ensures { OnOk result (Adds entries.old.items entries.new.items (λ e. Each (OfColumn column) places.now e)) }
{
    for i in 0..places.len() {
        add_column(alloc, column, &places[i], entries)?;
    }
    Ok(())
}

/// Adds what is said of each of the values: column by column, and in each the places as they are given.
pub(crate) fn add_columns(
    alloc: Global,
    places: &[Place],
    entries: &mut Vec<Entry>,
) -> Result<(), ShredFault>
    ensures { OnOk result (Adds entries.old.items entries.new.items (λ e. Each OfPlace places.now e)) }
{
    for column in 1..9 {
        add_places(alloc, column, places, entries)?;
    }
    Ok(())
}

/// For how many entries there has to be room.
pub(crate) fn count(places: &[Place]) -> usize {
    let mut count: usize = 0;
    for place in places {
        let own = if kind(place.value()) == 0 { 2 } else { 3 };
        count = count
            .saturating_add(place.inside().len())
            .saturating_add(own);
    }
    count
}
