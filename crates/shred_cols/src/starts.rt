// Where each column begins among entries in their order.
ghost use Rattle.std.specs.Prelude.{◌+◌, IfSome};
ghost use Rattle.std.specs.List.Sorted.{IsStrictlySortedBy};
ghost use Rattle.shred_cols.specs.Order.{entry_cmp};
ghost use Rattle.shred_cols.specs.Starts.{IsStart, AreStarts};

use crate::entry::Entry;

/// The places where the columns from the second one on begin.
#[derive(Clone, Copy, Drop)]
pub(crate) struct Starts {
    size: u32,
    kept: u32,
    truth: u32,
    number: u32,
    text: u32,
    date: u32,
    null: u32,
}

fn start(entries: &[Entry], column: u8) -> Option<u32>
    requires { IsStrictlySortedBy entry_cmp entries.now }
    ensures { IfSome result (λ s. IsStart column entries.now s) }
{
    let place = entries.partition_point(|e| e.column() < column);
    match u32::try_from(place) {
        Ok(place) => Some(place),
        Err(_) => None,
    }
}

impl Starts {
    /// The places of entries in their order; None where 32 bits don't count these.
    pub(crate) fn of_entries(entries: &[Entry]) -> Option<Starts>
        requires { IsStrictlySortedBy entry_cmp entries.now }
        ensures { IfSome result (λ s. AreStarts s entries.now) }
    {
        let size = start(entries, 2)?;
        let kept = start(entries, 3)?;
        let truth = start(entries, 4)?;
        let number = start(entries, 5)?;
        let text = start(entries, 6)?;
        let date = start(entries, 7)?;
        let null = start(entries, 8)?;
        Some(Starts {
            size,
            kept,
            truth,
            number,
            text,
            date,
            null,
        })
    }

    /// The place where a column begins.
    pub(crate) fn front(&self, column: u8, entries: &[Entry]) -> usize
        requires { AreStarts self.now entries.now }
        ensures { IsStart column entries.now result }
    {
        match column {
            0 => 0,
            1 => 0,
            2 => self.size as usize,
            3 => self.kept as usize,
            4 => self.truth as usize,
            5 => self.number as usize,
            6 => self.text as usize,
            7 => self.date as usize,
            8 => self.null as usize,
            _ => entries.len(),
        }
    }

    /// The place where the next column begins.
    pub(crate) fn back(&self, column: u8, entries: &[Entry]) -> usize
        requires { AreStarts self.now entries.now }
        ensures { IsStart (column + 1) entries.now result }
    {
        match column {
            0 => 0,
            1 => self.size as usize,
            2 => self.kept as usize,
            3 => self.truth as usize,
            4 => self.number as usize,
            5 => self.text as usize,
            6 => self.date as usize,
            7 => self.null as usize,
            _ => entries.len(),
        }
    }
}
