//! A table of names: a name by its row, and a row by its name.
ghost use Rattle.std.specs.Prelude.{◌≡◌, ◌<◌, ◌↔◌, ℕ, length, slice_get, Some, IfSome, IsTrue};
ghost use Rattle.name_tables.specs.Names.{all_distinct};

use std::marker::Model;

/// A table of N names in rows 0 to N - 1, which all differ. Contracts see the list of the rows' bytes.
#[derive(Drop)]
pub struct Names<const N: usize> {
    pub(crate) rows: &'static [&'static str],
}

impl<const N: usize> Model for Names<N> {
    ghost use Rattle.std.specs.Prelude.{◌≡◌, List, ℕ, map, length, IsTrue};
    ghost use Rattle.name_tables.specs.Names.{all_distinct};

    ghost Value = { List (List ℕ) };

    ghost view = { λ n. map (λ row. row.now) n.rows.now };

    ghost invariant = { λ n. (length n.rows.now ≡ N) × IsTrue (all_distinct (map (λ row. row.now) n.rows.now)) };
}

/// The table of the names that are written, in their order.
macro_rules! rows {
    ($($name:literal),* $(,)?) => {
        Names { rows: &[$($name),*] }
    };
}

pub(crate) use rows;

impl<const N: usize> Names<N> {
    /// The row of a name, and None where it is the name of no row. Case counts.
    pub fn find(&self, name: &str) -> Option<usize>
        ensures within { IfSome result (λ row. row < N) }
        ensures found { (i : ℕ) → (result ≡ Some i) ↔ (slice_get self.now i ≡ Some name.now) }
        ensures count { length self.now ≡ N }
        ensures distinct { IsTrue (all_distinct self.now) }
    {
        self.rows.iter().position(|row| *row == name)
    }

    /// The name of a row.
    pub fn name(&self, row: usize) -> &'static str
        requires { row < N }
        ensures name { slice_get self.now row ≡ Some result.now }
        ensures count { length self.now ≡ N }
        ensures distinct { IsTrue (all_distinct self.now) }
    {
        match self.rows.get(row) {
            Some(name) => name,
            None => unreachable!(),
        }
    }
}
