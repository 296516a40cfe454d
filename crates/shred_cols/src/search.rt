// The search for entries, by halves and by borrowed parts.
ghost use Rattle.std.specs.Prelude.{◌≡◌, ◌≢◌, ◌<◌, ◌≤◌, ℕ, true, false, length, IfSome, IfNone, slice_get, slice_index_or, take, drop, ◌-◌};
ghost use Rattle.std.specs.Option.{option_copied};
ghost use Rattle.std.specs.List.{Contains, list_any, list_all};
ghost use Rattle.std.specs.List.Sorted.{IsStrictlySortedBy};
ghost use Rattle.std.specs.Ordering.{is_gt};
ghost use Rattle.shred_cols.specs.Entry.{path_of, column_of};
ghost use Rattle.shred_cols.specs.Order.{entry_cmp};
ghost use Rattle.shred_cols.specs.Probe.{inside, is_kept_at};
ghost use Rattle.shred_cols.specs.declared.forms.Kept.{Kept};
ghost use Rattle.shred_cols.specs.declared.probe.Probe.TheVariants as p;
ghost use Rattle.shred_cols.specs.Starts.{AreStarts};
ghost use Rattle.shred_cols.specs.Search.{is_before, is_short_of, end_cmp, is_at};
ghost use Rattle.shred_cols.specs.declared.entry.Entry.{Entry};

use crate::entry::Entry;
use crate::forms::Kept;
use crate::probe::{Probe, inside, number_within};
use crate::starts::Starts;
use doc_paths::Path;
use json_tree::Num;
use std::cmp::Ordering;

/// A column of no more entries than this is looked through, which takes less than a search.
const SHORT: usize = 8;

/// Whether an entry of the column stands before a path and a low end.
fn is_short_of(path: &str, low: Option<i128>, bytes: &[u8], entry: &Entry) -> bool
    ensures { result ≡ is_short_of path.now low bytes.now entry.now }
{
    match path.cmp(entry.path().text()) {
        Ordering::Less => false,
        Ordering::Equal => is_past(low, bytes, entry),
        Ordering::Greater => true,
    }
}

/// Whether an end is past what an entry says.
fn is_past(end: Option<i128>, bytes: &[u8], entry: &Entry) -> bool
    ensures { result ≡ is_gt (end_cmp end bytes.now entry.now) }
{
    let Some(number) = end else {
        return false;
    };
    match number.cmp(&entry.number()) {
        Ordering::Less => false,
        Ordering::Equal => bytes.cmp(entry.bytes()) == Ordering::Greater,
        Ordering::Greater => true,
    }
}

/// The place of the first entry that isn't before a column, a path and a low end.
fn seek(
    entries: &[Entry],
    starts: &Starts,
    column: u8,
    path: &str,
    end: Option<i128>,
    bytes: &[u8],
) -> usize
    requires sorted { IsStrictlySortedBy entry_cmp entries.now }
    requires starts { AreStarts starts.now entries.now }
    ensures within { result ≤ length entries.now }
    ensures before { (k : ℕ) (d : Entry) → k < result → is_before column path.now end bytes.now (slice_index_or entries.now k d) ≡ true }
    ensures after { (k : ℕ) (d : Entry) → result ≤ k → k < length entries.now → is_before column path.now end bytes.now (slice_index_or entries.now k d) ≡ false }
{
    let front = starts.front(column, entries);
    let back = starts.back(column, entries);
    let mut low = front;
    let mut high = back;
    // `_id`, which is the first path of most documents, is found in two steps
    if front + 1 < back && !is_short_of(path, end, bytes, &entries[front + 1]) {
        high = front + 1;
    }
    'halves: while low < high {
        let middle = low + (high - low) / 2;
        if is_short_of(path, end, bytes, &entries[middle]) {
            low = middle + 1;
        } else {
            high = middle;
        }
    }
    low
}

fn entry_in(entries: &[Entry], place: usize) -> Option<&Entry>
    ensures { option_copied result ≡ slice_get entries.now place }
{
    entries.get(place)
}

/// Whether an entry of a run says a number of a path and a range.
fn any_number(path: &Path, low: &Option<Num>, high: &Option<Num>, run: &[Entry]) -> bool
    ensures { result ≡ list_any (inside (p.NumRange path.now low.now high.now)) run.now }
{
    for entry in run {
        if is_number(path, low, high, entry) {
            return true;
        }
    }
    false
}

fn is_number(path: &Path, low: &Option<Num>, high: &Option<Num>, entry: &Entry) -> bool
    ensures { result ≡ inside (p.NumRange path.now low.now high.now) entry.now }
{
    match entry {
        Entry::Num(own, n) => path.text() == own.text() && number_within(low, high, n),
        _ => false,
    }
}

/// Whether an entry of a run is one that a probe asks for.
fn any_of(probe: &Probe, run: &[Entry]) -> bool
    ensures { result ≡ list_any (inside probe.now) run.now }
{
    match probe {
        Probe::NumRange(path, low, high) => any_number(path, low, high, run),
        _ => any_each(probe, run),
    }
}

fn any_each(probe: &Probe, run: &[Entry]) -> bool
    ensures { result ≡ list_any (inside probe.now) run.now }
{
    for entry in run {
        if inside(probe, entry) {
            return true;
        }
    }
    false
}

/// The same of all entries, by a search.
fn any_found(probe: &Probe, entries: &[Entry], starts: &Starts) -> bool
    requires sorted { IsStrictlySortedBy entry_cmp entries.now }
    requires starts { AreStarts starts.now entries.now }
    ensures { result ≡ list_any (inside probe.now) entries.now }
{
    let place = seek(
        entries,
        starts,
        probe.column(),
        probe.path_text(),
        probe.low_number(),
        probe.low_bytes(),
    );
    match entry_in(entries, place) {
        Some(entry) => inside(probe, entry),
        None => false,
    }
}

/// Whether one of the entries is one that a probe asks for.
pub(crate) fn any_inside(probe: &Probe, entries: &[Entry], starts: &Starts) -> bool
    requires sorted { IsStrictlySortedBy entry_cmp entries.now }
    requires starts { AreStarts starts.now entries.now }
    ensures { result ≡ list_any (inside probe.now) entries.now }
{
    let front = starts.front(probe.column(), entries);
    let back = starts.back(probe.column(), entries);
    if front < back && back - front <= SHORT {
        return any_of(probe, part(entries, front, back));
    }
    any_found(probe, entries, starts)
}

/// Whether one of the entries says that a value is kept at a path.
pub(crate) fn any_keeps(entries: &[Entry], starts: &Starts, path: &Path, kept: &Kept) -> bool
    requires sorted { IsStrictlySortedBy entry_cmp entries.now }
    requires starts { AreStarts starts.now entries.now }
    ensures { result ≡ list_any (inside (p.Has path.now kept.now)) entries.now }
{
    let place = seek(entries, starts, 3, path.text(), kept.number(), kept.bytes());
    match entry_in(entries, place) {
        Some(entry) => keeps(path, kept, entry),
        None => false,
    }
}

fn keeps(path: &Path, kept: &Kept, entry: &Entry) -> bool
    ensures { result ≡ inside (p.Has path.now kept.now) entry.now }
{
    match entry {
        Entry::Has(own, other) => path.text() == own.text() && kept.same(other),
        _ => false,
    }
}

/// The run of the entries that say which values are kept at a path.
pub(crate) fn kept_at<'a>(entries: &'a [Entry], starts: &Starts, path: &str) -> &'a [Entry]
    requires sorted { IsStrictlySortedBy entry_cmp entries.now }
    requires starts { AreStarts starts.now entries.now }
    ensures asked { (k : Kept) → list_any (inside (p.Has path.now k)) result.now ≡ list_any (inside (p.Has path.now k)) entries.now }
    ensures only { list_all (is_kept_at path.now) result.now ≡ true }
{
    let low = seek(entries, starts, 3, path, None, &[]);
    let high = seek(entries, starts, 3, path, Some(2), &[]);
    part(entries, low, high)
}

fn part(entries: &[Entry], low: usize, high: usize) -> &[Entry]
    requires { (low ≤ high) × (high ≤ length entries.now) }
    ensures { result.now ≡ take (high - low) (drop low entries.now) }
{
    &entries[low..high]
}

/// An entry of a column and a path.
fn entry_at<'a>(entries: &'a [Entry], starts: &Starts, column: u8, path: &str) -> Option<&'a Entry>
    requires sorted { IsStrictlySortedBy entry_cmp entries.now }
    requires starts { AreStarts starts.now entries.now }
    ensures found { IfSome result (λ e. Contains entries.now e.now × (path_of e.now ≡ path.now) × (column_of e.now ≡ column)) }
    ensures none { IfNone result ((e : Entry) → Contains entries.now e → path_of e ≡ path.now → column_of e ≢ column) }
{
    let place = seek(entries, starts, column, path, None, &[]);
    let Some(entry) = entry_in(entries, place) else {
        return None;
    };
    if is_at(entry, column, path) {
        return Some(entry);
    }
    None
}

/// Whether an entry is of a column and a path.
fn is_at(entry: &Entry, column: u8, path: &str) -> bool
    ensures { result ≡ is_at entry.now column path.now }
{
    entry.column() == column && entry.path().text() == path
}

/// The entry that tells the sort key of a path.
pub(crate) fn find_key<'a>(entries: &'a [Entry], starts: &Starts, path: &str) -> Option<&'a Entry>
    requires sorted { IsStrictlySortedBy entry_cmp entries.now }
    requires starts { AreStarts starts.now entries.now }
    ensures found { IfSome result (λ e. Contains entries.now e.now × (path_of e.now ≡ path.now) × (4 ≤ column_of e.now)) }
    ensures none { IfNone result ((e : Entry) → Contains entries.now e → path_of e ≡ path.now → column_of e < 4) }
{
    for column in 4..9 {
        if let Some(entry) = entry_at(entries, starts, column, path) {
            return Some(entry);
        }
    }
    None
}
