// The rows of one collection, in chunks of neighbours.
ghost use Rattle.std.specs.Prelude.{◌≡◌, ◌≢◌, ◌+◌, ◌-◌, ◌<◌, ◌≤◌, ◌++◌, [], ◌∷◌, true, false, length, Option, Some, None, OnOk, OnErr, IfSome, vec_len, vec_capacity, slice_set, slice_index_or, take, drop};
ghost use Rattle.std.specs.List.{AllByRecursion as Each};
ghost use Rattle.std.specs.Option.{option_map, option_copied};
ghost use Rattle.json_tree.specs.Id.{id_cmp, IsId};
ghost use Rattle.shred_cols.specs.Row.{Version, id_of};
ghost use Rattle.shred_cols.specs.Beginning.{beginning};
ghost use Rattle.shred_cols.specs.Rows.{Rows, keyed, ascends, version_of, with_version, without, first, next_of};
ghost use Rattle.column_table.specs.Spot.{joined, IsChunkOf, Below, Above};
ghost use Rattle.column_table.specs.Seen.{IsChunked};
ghost use Rattle.column_table.specs.After.{rows_after};

use crate::chunk::{Chunk, WIDTH, compare};
use crate::fault::TableFault;
use crate::rows_after::RowsAfter;
use json_tree::DocId;
use shred_cols::{Row, Steps, beginning};
use std::alloc::Global;
use std::cmp::Ordering;
use std::marker::{Brand, Model};
use std::sync::ledger::{Blank, Ledger};

/// The rows of one collection under their ids, in chunks of neighbours. An insertion that was reserved
/// takes no memory.
#[derive(Drop)]
pub struct Table {
    pub(crate) chunks: Vec<Chunk>,
    spare: Option<Chunk>,
    reserved: bool,
    alloc: Global,
}

impl Model for Table {
    ghost use Rattle.std.specs.Prelude.{cond, vec_capacity};
    ghost use Rattle.column_table.specs.Spot.{joined};
    ghost use Rattle.column_table.specs.Seen.{TableSeen, table_code, IsChunked};

    ghost Value = { TableSeen };

    ghost coded = { table_code };

    ghost view = { λ t. record { rows = joined t.chunks.items; spare = cond t.reserved 1 0 } };

    ghost invariant = { λ t. IsChunked t.chunks.items (vec_capacity t.chunks) t.reserved t.spare };
}

/// The chunk in which an id stands, or would stand.
fn chunk_of<L: Ledger>(chunks: &[Chunk], id: &DocId, begins: &[u8], steps: &mut Steps<L>) -> usize
    requires begins { begins.now ≡ beginning id.now }
    requires some { 1 ≤ length chunks.now }
    requires rise { ascends (joined chunks.now) ≡ true }
    requires filled { Each (λ c. 1 ≤ length c) chunks.now }
    ensures chunk { IsChunkOf id.now chunks.now result }
    ensures cost { steps.new + 1 ≤ steps.old + length chunks.now }
{
    let mut low = 1;
    let mut high = chunks.len();
    'halves: while low < high {
        let middle = low + (high - low) / 2;
        match compare(id, begins, chunks[middle].first(), steps) {
            Ordering::Less => high = middle,
            _ => low = middle + 1,
        }
    }
    low - 1
}

/// Splits a full chunk, and answers in which half the id stands, or would stand.
fn split<L: Ledger>(
    chunks: &mut Vec<Chunk>,
    upper: Chunk,
    at: usize,
    id: &DocId,
    begins: &[u8],
    steps: &mut Steps<L>,
) -> usize
    requires begins { begins.now ≡ beginning id.now }
    requires of { IsChunkOf id.now chunks.old.items at }
    requires full { length (slice_index_or chunks.old.items at []) ≡ 64 }
    requires rise { ascends (joined chunks.old.items) ≡ true }
    requires filled { Each (λ c. 1 ≤ length c) chunks.old.items }
    requires room { length chunks.old.items < vec_capacity chunks.old }
    requires empty { upper ≡ [] }
    ensures rows { joined chunks.new.items ≡ joined chunks.old.items }
    ensures filled { Each (λ c. 1 ≤ length c) chunks.new.items }
    ensures of { IsChunkOf id.now chunks.new.items result }
    ensures room { length (slice_index_or chunks.new.items result []) < 64 }
{
    let mut upper = upper;
    let lower = &mut chunks[at];
    lower.split(&mut upper);
    let order = compare(id, begins, upper.first(), steps);
    match chunks.insert(at + 1, upper) {
        Ok(()) => {}
        Err(_) => unreachable!(),
    }
    match order {
        Ordering::Less => at,
        _ => at + 1,
    }
}

/// Whether the id comes after all rows, of which the chunk at a place has the nearest.
fn is_past<L: Ledger>(
    chunks: &[Chunk],
    at: usize,
    id: &DocId,
    begins: &[u8],
    steps: &mut Steps<L>,
) -> bool
    requires begins { begins.now ≡ beginning id.now }
    requires of { IsChunkOf id.now chunks.now at }
    requires rise { ascends (joined chunks.now) ≡ true }
    requires filled { Each (λ c. 1 ≤ length c) chunks.now }
    ensures { result ≡ true → Below id.now (joined chunks.now) }
{
    if at + 1 < chunks.len() {
        return false;
    }
    match compare(id, begins, chunks[at].last(), steps) {
        Ordering::Greater => true,
        _ => false,
    }
}

/// Puts a row into a chunk.
fn put_in<L: Ledger>(chunks: &mut Vec<Chunk>, at: usize, row: Row, steps: &mut Steps<L>)
    requires of { IsChunkOf (id_of row.doc) chunks.old.items at }
    requires room { length (slice_index_or chunks.old.items at []) < 64 }
    requires rise { ascends (joined chunks.old.items) ≡ true }
    requires filled { Each (λ c. 1 ≤ length c) chunks.old.items }
    requires free { version_of (id_of row.doc) (joined chunks.old.items) ≡ None }
    ensures rows { joined chunks.new.items ≡ with_version (id_of row.doc) row (joined chunks.old.items) }
    ensures filled { Each (λ c. 1 ≤ length c) chunks.new.items }
{
    let chunk = &mut chunks[at];
    chunk.insert(row, steps);
}

/// Puts a row behind all others, into a chunk of its own.
fn put_behind<L: Ledger>(
    chunks: &mut Vec<Chunk>,
    spare: &mut Option<Chunk>,
    row: Row,
    steps: &mut Steps<L>,
)
    requires past { Below (id_of row.doc) (joined chunks.old.items) }
    requires filled { Each (λ c. 1 ≤ length c) chunks.old.items }
    requires room { length chunks.old.items < vec_capacity chunks.old }
    requires spare { spare.old ≡ Some [] }
    ensures rows { joined chunks.new.items ≡ with_version (id_of row.doc) row (joined chunks.old.items) }
    ensures filled { Each (λ c. 1 ≤ length c) chunks.new.items }
    ensures spare { spare.new ≡ None }
{
    match spare.take() {
        Some(chunk) => {
            let mut chunk = chunk;
            chunk.insert(row, steps);
            chunks.push_reserved(chunk);
        }
        None => unreachable!(),
    }
}

/// Puts a row into one of the halves of its full chunk.
fn put_in_half<L: Ledger>(
    chunks: &mut Vec<Chunk>,
    spare: &mut Option<Chunk>,
    at: usize,
    row: Row,
    steps: &mut Steps<L>,
)
    requires of { IsChunkOf (id_of row.doc) chunks.old.items at }
    requires full { length (slice_index_or chunks.old.items at []) ≡ 64 }
    requires rise { ascends (joined chunks.old.items) ≡ true }
    requires filled { Each (λ c. 1 ≤ length c) chunks.old.items }
    requires room { length chunks.old.items < vec_capacity chunks.old }
    requires spare { spare.old ≡ Some [] }
    requires free { version_of (id_of row.doc) (joined chunks.old.items) ≡ None }
    ensures rows { joined chunks.new.items ≡ with_version (id_of row.doc) row (joined chunks.old.items) }
    ensures filled { Each (λ c. 1 ≤ length c) chunks.new.items }
    ensures spare { spare.new ≡ None }
{
    match spare.take() {
        Some(upper) => {
            let half = split(chunks, upper, at, row.id(), row.begins(), steps);
            put_in(chunks, half, row, steps);
        }
        None => unreachable!(),
    }
}

/// Puts a row whose id isn't there into its chunk, or into the spare one where that is full: ids that come
/// in order fill their chunks.
fn insert_from<L: Ledger>(
    chunks: &mut Vec<Chunk>,
    spare: &mut Option<Chunk>,
    row: Row,
    blank: Blank,
)
    requires name { blank.name ≡ L.name }
    requires parts { blank.parts ≡ L.parts }
    requires some { 0 < L.parts }
    requires rise { ascends (joined chunks.old.items) ≡ true }
    requires filled { Each (λ c. 1 ≤ length c) chunks.old.items }
    requires room { length chunks.old.items < vec_capacity chunks.old }
    requires spare { spare.old ≡ Some [] }
    requires free { version_of (id_of row.doc) (joined chunks.old.items) ≡ None }
    ensures rows { joined chunks.new.items ≡ with_version (id_of row.doc) row (joined chunks.old.items) }
    ensures filled { Each (λ c. 1 ≤ length c) chunks.new.items }
    ensures spare { IfSome spare.new (λ c. c ≡ []) }
{
    let mut steps = Steps::<L>::from_blank(blank);
    if chunks.is_empty() {
        put_behind(chunks, spare, row, &mut steps);
        return;
    }
    let at = chunk_of(chunks.as_slice(), row.id(), row.begins(), &mut steps);
    if chunks[at].len() < WIDTH {
        put_in(chunks, at, row, &mut steps);
        return;
    }
    if is_past(chunks.as_slice(), at, row.id(), row.begins(), &mut steps) {
        put_behind(chunks, spare, row, &mut steps);
        return;
    }
    put_in_half(chunks, spare, at, row, &mut steps);
}

/// Puts a row over the one of its id.
fn replace_from<L: Ledger>(chunks: &mut Vec<Chunk>, row: Row, blank: Blank)
    requires name { blank.name ≡ L.name }
    requires parts { blank.parts ≡ L.parts }
    requires some { 0 < L.parts }
    requires rise { ascends (joined chunks.old.items) ≡ true }
    requires filled { Each (λ c. 1 ≤ length c) chunks.old.items }
    requires there { version_of (id_of row.doc) (joined chunks.old.items) ≢ None }
    ensures rows { joined chunks.new.items ≡ with_version (id_of row.doc) row (joined chunks.old.items) }
    ensures filled { Each (λ c. 1 ≤ length c) chunks.new.items }
    ensures len { length chunks.new.items ≡ length chunks.old.items }
    ensures capacity { vec_capacity chunks.new ≡ vec_capacity chunks.old }
{
    if chunks.is_empty() {
        unreachable!()
    }
    let mut steps = Steps::<L>::from_blank(blank);
    let at = chunk_of(chunks.as_slice(), row.id(), row.begins(), &mut steps);
    let chunk = &mut chunks[at];
    let _old = chunk.replace(row, &mut steps);
}

/// Takes a chunk out if it is empty.
fn tidy(chunks: &mut Vec<Chunk>, at: usize)
    requires within { at < length chunks.old.items }
    requires before { Each (λ c. 1 ≤ length c) (take at chunks.old.items) }
    requires after { Each (λ c. 1 ≤ length c) (drop (at + 1) chunks.old.items) }
    ensures rows { joined chunks.new.items ≡ joined chunks.old.items }
    ensures filled { Each (λ c. 1 ≤ length c) chunks.new.items }
    ensures len { length chunks.new.items ≤ length chunks.old.items }
    ensures capacity { vec_capacity chunks.new ≡ vec_capacity chunks.old }
{
    if chunks[at].len() == 0 {
        let _empty = chunks.remove(at);
    }
}

/// Takes the row of an id out of its chunk.
fn remove_from<L: Ledger>(chunks: &mut Vec<Chunk>, id: &DocId, blank: Blank) -> Option<Row>
    requires name { blank.name ≡ L.name }
    requires parts { blank.parts ≡ L.parts }
    requires some { 0 < L.parts }
    requires rise { ascends (joined chunks.old.items) ≡ true }
    requires filled { Each (λ c. 1 ≤ length c) chunks.old.items }
    ensures row { result ≡ version_of id.now (joined chunks.old.items) }
    ensures rows { joined chunks.new.items ≡ without id.now (joined chunks.old.items) }
    ensures filled { Each (λ c. 1 ≤ length c) chunks.new.items }
    ensures len { length chunks.new.items ≤ length chunks.old.items }
    ensures capacity { vec_capacity chunks.new ≡ vec_capacity chunks.old }
{
    if chunks.is_empty() {
        return None;
    }
    let mut steps = Steps::<L>::from_blank(blank);
    let begins = beginning(id);
    let at = chunk_of(chunks.as_slice(), id, &begins, &mut steps);
    let chunk = &mut chunks[at];
    let row = chunk.remove(id, &begins, &mut steps);
    tidy(chunks, at);
    row
}

/// The chunks from a place on.
fn chunks_from(chunks: &[Chunk], at: usize) -> &[Chunk]
    requires { at ≤ length chunks.now }
    ensures { result.now ≡ drop at chunks.now }
{
    &chunks[at..]
}

/// The rows after an id.
fn after_from<'a, L: Ledger>(chunks: &'a [Chunk], id: &DocId, blank: Blank) -> RowsAfter<'a>
    requires name { blank.name ≡ L.name }
    requires parts { blank.parts ≡ L.parts }
    requires some { 0 < L.parts }
    requires rise { ascends (joined chunks.now) ≡ true }
    requires filled { Each (λ c. 1 ≤ length c) chunks.now }
    ensures { result ≡ rows_after (Some id.now) (joined chunks.now) }
{
    if chunks.is_empty() {
        return RowsAfter::new(&[], chunks);
    }
    let mut steps = Steps::<L>::from_blank(blank);
    let begins = beginning(id);
    let at = chunk_of(chunks, id, &begins, &mut steps);
    let here = chunks[at].after(id, &begins, &mut steps);
    RowsAfter::new(here, chunks_from(chunks, at + 1))
}

impl Table {
    /// No rows. It takes no memory.
    pub fn new(alloc: Global) -> Table
        ensures rows { result.rows ≡ [] }
    {
        Table {
            chunks: Vec::new(alloc),
            spare: None,
            reserved: false,
            alloc,
        }
    }

    /// The row of an id, by at most one comparison more than there are rows.
    pub fn row<L: Ledger>(&self, id: &DocId, steps: &mut Steps<L>) -> Option<&Row>
        ensures row { option_copied result ≡ version_of id.now self.now.rows }
        ensures cost { steps.new ≤ steps.old + length self.now.rows + 1 }
    {
        if self.chunks.is_empty() {
            return None;
        }
        let begins = beginning(id);
        let at = chunk_of(&self.chunks, id, &begins, steps);
        self.chunks[at].row(id, &begins, steps)
    }

    /// Makes room for one insertion.
    pub fn reserve(&mut self) -> Result<(), TableFault>
        ensures ok { OnOk result (1 ≤ self.new.spare) }
        ensures rows { self.new.rows ≡ self.old.rows }
        ensures spare { self.old.spare ≤ self.new.spare }
    {
        if self.reserved {
            return Ok(());
        }
        if self.chunks.reserve(1).is_err() {
            return Err(TableFault::NoMemory);
        }
        if self.spare.is_none() {
            self.spare = Some(Chunk::new(self.alloc)?);
        }
        self.reserved = true;
        Ok(())
    }

    /// Puts a row whose id isn't there into its place. It takes no memory.
    pub fn insert(&mut self, row: Row)
        requires free { version_of (id_of row.doc) self.old.rows ≡ None }
        requires reserved { 1 ≤ self.old.spare }
        ensures rows { self.new.rows ≡ with_version (id_of row.doc) row self.old.rows }
        ensures spare { self.new.spare + 1 ≡ self.old.spare }
    {
        self.reserved = false;
        insert_from::<Brand>(&mut self.chunks, &mut self.spare, row, Blank::new(1));
    }

    /// Puts a row over the one of its id. It takes no memory.
    pub fn replace(&mut self, row: Row)
        requires there { version_of (id_of row.doc) self.old.rows ≢ None }
        requires reserved { 1 ≤ self.old.spare }
        ensures rows { self.new.rows ≡ with_version (id_of row.doc) row self.old.rows }
        ensures spare { self.old.spare ≤ self.new.spare }
    {
        replace_from::<Brand>(&mut self.chunks, row, Blank::new(1));
    }

    /// Takes the row of an id out. It takes no memory.
    pub fn remove(&mut self, id: &DocId) -> Option<Row>
        ensures row { result ≡ version_of id.now self.old.rows }
        ensures rows { self.new.rows ≡ without id.now self.old.rows }
        ensures spare { self.old.spare ≤ self.new.spare }
    {
        remove_from::<Brand>(&mut self.chunks, id, Blank::new(1))
    }

    /// The rows after an id, or all, in order of id.
    pub fn rows_after(&self, after: Option<&DocId>) -> RowsAfter<'_>
        ensures rows { result ≡ rows_after (option_copied after.entry) self.now.rows }
        ensures rise { ascends self.now.rows ≡ true }
    {
        match after {
            Some(id) => after_from::<Brand>(&self.chunks, id, Blank::new(1)),
            None => RowsAfter::new(&[], &self.chunks),
        }
    }

    /// The row of the next id after the given one, or of the first id.
    pub fn next_after(&self, after: Option<&DocId>) -> Option<&Row>
        ensures row { option_map keyed (option_copied result)
            ≡ next_of (option_copied after.entry) self.now.rows }
        ensures rise { ascends self.now.rows ≡ true }
    {
        let mut rows = self.rows_after(after);
        rows.next()
    }
}
