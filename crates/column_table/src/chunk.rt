// A run of neighbouring rows, of which a chunk holds a bounded number.
ghost use Rattle.std.specs.Prelude.{◌≡◌, ◌≢◌, ◌+◌, ◌-◌, ◌<◌, ◌≤◌, ◌++◌, [], ◌∷◌, true, false, length, map, take, drop, Option, Some, None, IfOk, IfSome, OnOk, vec_len, vec_capacity, slice_get, slice_set, slice_index_or};
ghost use Rattle.std.specs.Option.{option_map, option_copied};
ghost use Rattle.json_tree.specs.Id.{id_cmp, IsId};
ghost use Rattle.shred_cols.specs.Beginning.{beginning};
ghost use Rattle.shred_cols.specs.Row.{Version, id_of};
ghost use Rattle.shred_cols.specs.Rows.{Rows, keyed, ascends, version_of, with_version, without};
ghost use Rattle.column_table.specs.After.{rows_after};
ghost use Rattle.column_table.specs.Spot.{IsSpot};

use crate::fault::TableFault;
use json_tree::{DocId, ids_are_ordered};
use shred_cols::{Row, Steps, beginnings_tell_order};
use std::alloc::Global;
use std::cmp::Ordering;
use std::marker::Model;
use std::mem;
use std::sync::ledger::Ledger;

/// So many rows a chunk holds at most.
pub(crate) const WIDTH: usize = 64;

/// Where an id stands, or before which place it would stand.
#[derive(Clone, Copy, Debug, PartialEq, Eq, Drop)]
pub(crate) enum Spot {
    Here(usize),
    Before(usize),
}

/// Rows in the order of their ids, with room for `WIDTH` of them.
#[derive(Drop)]
pub(crate) struct Chunk {
    rows: Vec<Row>,
}

impl Model for Chunk {
    ghost use Rattle.std.specs.Prelude.{map, ◌≤◌, vec_len, vec_capacity, slice_get, slice_set, slice_index_or};
    ghost use Rattle.shred_cols.specs.Rows.{Rows, keyed};
    ghost use Rattle.column_table.specs.Seen.{rows_code};

    ghost Value = { Rows };

    ghost coded = { rows_code };

    ghost view = { λ c. map keyed c.rows.items };

    ghost invariant = { λ c. (vec_len c.rows ≤ 64) × (64 ≤ vec_capacity c.rows) };
}

/// One comparison of an id with a row's: by their beginnings, and where these are the same by all.
pub(crate) fn compare<L: Ledger>(
    id: &DocId,
    begins: &[u8],
    row: &Row,
    steps: &mut Steps<L>,
) -> Ordering
    requires { begins.now ≡ beginning id.now }
    ensures order { result ≡ id_cmp id.now (id_of row.now.doc) }
    ensures one { steps.new ≡ steps.old + 1 }
{
    steps.tick();
    beginnings_tell_order();
    match begins.cmp(row.begins()) {
        Ordering::Less => Ordering::Less,
        Ordering::Equal => id.cmp(row.id()),
        Ordering::Greater => Ordering::Greater,
    }
}

/// Searches by halves.
fn seek<L: Ledger>(rows: &[Row], id: &DocId, begins: &[u8], steps: &mut Steps<L>) -> Spot
    requires begins { begins.now ≡ beginning id.now }
    requires rise { ascends (map keyed rows.now) ≡ true }
    ensures spot { IsSpot id.now (map keyed rows.now) result }
    ensures cost { steps.new ≤ steps.old + length rows.now }
{
    let mut low = 0;
    let mut high = rows.len();
    'halves: while low < high {
        let middle = low + (high - low) / 2;
        match compare(id, begins, &rows[middle], steps) {
            Ordering::Less => high = middle,
            Ordering::Equal => return Spot::Here(middle),
            Ordering::Greater => low = middle + 1,
        }
    }
    Spot::Before(low)
}

/// The row at a place.
fn row_at(rows: &[Row], place: usize) -> Option<&Row>
    ensures { option_copied result ≡ slice_get rows.now place }
{
    rows.get(place)
}

/// The rows from a place on.
fn rows_from(rows: &[Row], place: usize) -> &[Row]
    requires { place ≤ length rows.now }
    ensures { result.now ≡ drop place rows.now }
{
    &rows[place..]
}

/// Puts a row into a place, and answers the one that was there.
fn swap_in(rows: &mut Vec<Row>, place: usize, row: Row) -> Row
    requires { place < length rows.old.items }
    ensures rows { rows.new.items ≡ slice_set rows.old.items place row }
    ensures old { result ≡ slice_index_or rows.old.items place result }
    ensures len { vec_len rows.new ≡ vec_len rows.old }
    ensures capacity { vec_capacity rows.new ≡ vec_capacity rows.old }
{
    mem::replace(&mut rows[place], row)
}

impl Chunk {
    /// No rows.
    pub(crate) fn new(alloc: Global) -> Result<Chunk, TableFault>
        ensures { IfOk result (λ c. c ≡ []) }
    {
        match Vec::with_capacity(alloc, WIDTH) {
            Ok(rows) => Ok(Chunk { rows }),
            Err(_) => Err(TableFault::NoMemory),
        }
    }

    /// How many rows it has.
    pub(crate) fn len(&self) -> usize
        ensures count { result ≡ length self.now }
        ensures most { result ≤ 64 }
    {
        self.rows.len()
    }

    /// The row of an id.
    pub(crate) fn row<L: Ledger>(
        &self,
        id: &DocId,
        begins: &[u8],
        steps: &mut Steps<L>,
    ) -> Option<&Row>
        requires begins { begins.now ≡ beginning id.now }
        requires rise { ascends self.now ≡ true }
        ensures row { option_copied result ≡ version_of id.now self.now }
        ensures cost { steps.new ≤ steps.old + length self.now }
    {
        match seek(&self.rows, id, begins, steps) {
            Spot::Here(place) => row_at(&self.rows, place),
            Spot::Before(_) => None,
        }
    }

    /// Puts a row whose id isn't there into its place.
    pub(crate) fn insert<L: Ledger>(&mut self, row: Row, steps: &mut Steps<L>)
        requires rise { ascends self.old ≡ true }
        requires room { length self.old < 64 }
        requires free { version_of (id_of row.doc) self.old ≡ None }
        ensures rows { self.new ≡ with_version (id_of row.doc) row self.old }
    {
        match seek(&self.rows, row.id(), row.begins(), steps) {
            Spot::Here(_) => unreachable!(),
            Spot::Before(place) => match self.rows.insert(place, row) {
                Ok(()) => {}
                Err(_) => unreachable!(),
            },
        }
    }

    /// Puts a row over the one of its id. Its answer is for the caller to drop: no clause says which row it is.
    pub(crate) fn replace<L: Ledger>(&mut self, row: Row, steps: &mut Steps<L>) -> Row
        requires rise { ascends self.old ≡ true }
        requires there { version_of (id_of row.doc) self.old ≢ None }
        ensures rows { self.new ≡ with_version (id_of row.doc) row self.old }
    {
        match seek(&self.rows, row.id(), row.begins(), steps) {
            Spot::Here(place) => {
                let _id = row.id();
                let old = swap_in(&mut self.rows, place, row);
                let _old_id = old.id();
                ids_are_ordered();
                old
            }
            Spot::Before(_) => unreachable!(),
        }
    }

    /// Takes the row of an id out.
    pub(crate) fn remove<L: Ledger>(
        &mut self,
        id: &DocId,
        begins: &[u8],
        steps: &mut Steps<L>,
    ) -> Option<Row>
        requires begins { begins.now ≡ beginning id.now }
        requires rise { ascends self.old ≡ true }
        ensures row { result ≡ version_of id.now self.old }
        ensures rows { self.new ≡ without id.now self.old }
    {
        match seek(&self.rows, id, begins, steps) {
            Spot::Here(place) => Some(self.rows.remove(place)),
            Spot::Before(_) => None,
        }
    }

    /// The rows after an id.
    pub(crate) fn after<L: Ledger>(&self, id: &DocId, begins: &[u8], steps: &mut Steps<L>) -> &[Row]
        requires begins { begins.now ≡ beginning id.now }
        requires rise { ascends self.now ≡ true }
        ensures { map keyed result.now ≡ rows_after (Some id.now) self.now }
    {
        match seek(&self.rows, id, begins, steps) {
            Spot::Here(place) => rows_from(&self.rows, place + 1),
            Spot::Before(place) => rows_from(&self.rows, place),
        }
    }

    /// The first row.
    pub(crate) fn first(&self) -> &Row
        requires { 1 ≤ length self.now }
        ensures { (rest : Rows) × (self.now ≡ keyed result.now ∷ rest) }
    {
        match self.rows.first() {
            Some(row) => row,
            None => unreachable!(),
        }
    }

    /// The last row.
    pub(crate) fn last(&self) -> &Row
        requires { 1 ≤ length self.now }
        ensures { (front : Rows) × (self.now ≡ front ++ keyed result.now ∷ []) }
    {
        match self.rows.last() {
            Some(row) => row,
            None => unreachable!(),
        }
    }

    /// The first row, and the others.
    pub(crate) fn split_first(&self) -> (&Row, &[Row])
        requires { 1 ≤ length self.now }
        ensures { self.now ≡ keyed result.0.now ∷ map keyed result.1.now }
    {
        match self.rows.split_first() {
            Some((row, rest)) => (row, rest),
            None => unreachable!(),
        }
    }

    /// Moves the upper half into an empty chunk.
    pub(crate) fn split(&mut self, upper: &mut Chunk)
        requires full { length self.old ≡ 64 }
        requires empty { upper.old ≡ [] }
        ensures rows { self.new ++ upper.new ≡ self.old }
        ensures low { length self.new ≡ 32 }
        ensures high { length upper.new ≡ 32 }
    {
        move_half(&mut self.rows, &mut upper.rows);
    }
}

/// Moves what stands from the place 32 on into a list with room for it.
fn move_half(rows: &mut Vec<Row>, upper: &mut Vec<Row>)
    requires full { vec_len rows.old ≡ 64 }
    requires empty { upper.old.items ≡ [] }
    requires room { 64 ≤ vec_capacity upper.old }
    ensures items { rows.new.items ++ upper.new.items ≡ rows.old.items }
    ensures low { vec_len rows.new ≡ 32 }
    ensures high { vec_len upper.new ≡ 32 }
    ensures capacity { vec_capacity rows.new ≡ vec_capacity rows.old }
    ensures upper { vec_capacity upper.new ≡ vec_capacity upper.old }
{
    'moves: while rows.len() > 32 {
        let row = rows.remove(32);
        upper.push_reserved(row);
    }
}
