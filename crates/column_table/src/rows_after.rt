// A place in a table, from which its rows are read one after another.
ghost use Rattle.std.specs.Prelude.{◌≡◌, ◌≤◌, [], ◌∷◌, ◌++◌, map, length, MatchOption};
ghost use Rattle.std.specs.List.{AllByRecursion as Each};
ghost use Rattle.shred_cols.specs.Rows.{keyed};
ghost use Rattle.column_table.specs.Spot.{joined};

use crate::chunk::Chunk;
use shred_cols::Row;
use std::marker::Model;

/// The rows of a table from a place on, in order of id. It keeps its place in the chunks, so that no row
/// is searched for.
#[derive(Drop)]
pub struct RowsAfter<'a> {
    here: &'a [Row],
    beyond: &'a [Chunk],
}

impl<'a> Model for RowsAfter<'a> {
    ghost use Rattle.std.specs.Prelude.{map, ◌++◌, ◌≤◌, length};
    ghost use Rattle.std.specs.List.{AllByRecursion as Each};
    ghost use Rattle.shred_cols.specs.Rows.{Rows, keyed};
    ghost use Rattle.column_table.specs.Spot.{joined};
    ghost use Rattle.column_table.specs.Seen.{rows_code};

    ghost Value = { Rows };

    ghost coded = { rows_code };

    ghost view = { λ w. map keyed w.here.now ++ joined w.beyond.now };

    ghost invariant = { λ w. Each (λ c. 1 ≤ length c) w.beyond.now };
}

impl<'a> RowsAfter<'a> {
    /// Some rows of a chunk, and all those of the chunks beyond.
    pub(crate) fn new(here: &'a [Row], beyond: &'a [Chunk]) -> RowsAfter<'a>
        requires filled { Each (λ c. 1 ≤ length c) beyond.now }
        ensures rows { result ≡ map keyed here.now ++ joined beyond.now }
    {
        RowsAfter { here, beyond }
    }

    /// The next row, which is the first of those left.
    pub fn next(&mut self) -> Option<&'a Row>
        ensures { MatchOption result ((self.old ≡ []) × (self.new ≡ [])) (λ row. self.old ≡ keyed row.now ∷ self.new) }
    {
        match self.here.split_first() {
            Some((row, rest)) => {
                self.here = rest;
                return Some(row);
            }
            None => {}
        }
        match self.beyond.split_first() {
            Some((chunk, more)) => {
                let (row, rest) = chunk.split_first();
                self.here = rest;
                self.beyond = more;
                Some(row)
            }
            None => None,
        }
    }
}
