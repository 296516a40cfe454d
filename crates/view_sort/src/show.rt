// What a projection's operand says of its path.
ghost use Rattle.std.specs.Prelude.{◌≡◌};
ghost use Rattle.json_tree.specs.Tree.{number};
ghost use Rattle.json_tree.specs.View.{tree};
ghost use Rattle.json_tree.specs.Dates.{whole_i64};
ghost use Rattle.view_sort.specs.Projection.{whole_in, of_count, window, window_in, slice_of, slice_in, show_of, is_slice, is_on, is_off};

use json_tree::{Items, Members, Value};

/// What is shown of the value at a path: all of it, nothing, or so many of a list's elements from a
/// place on, which counts from the end where it is below 0.
#[derive(Clone, Copy)]
pub enum Show {
    On,
    Off,
    Slice(i64, u64),
}

impl Show {
    pub(crate) fn is_on(&self) -> bool
        ensures { result ≡ is_on self.now }
    {
        match self {
            Show::On => true,
            _ => false,
        }
    }

    pub(crate) fn is_off(&self) -> bool
        ensures { result ≡ is_off self.now }
    {
        match self {
            Show::Off => true,
            _ => false,
        }
    }

    pub(crate) fn is_slice(&self) -> bool
        ensures { result ≡ is_slice self.now }
    {
        match self {
            Show::Slice(..) => true,
            _ => false,
        }
    }
}

const ONE: i128 = 1_000_000_000_000_000_000;

fn whole_i64(units: i128) -> Option<i64>
    ensures { result ≡ whole_i64 units }
{
    let size = units.unsigned_abs();
    let whole = size / 1_000_000_000_000_000_000;
    if size % 1_000_000_000_000_000_000 != 0 {
        return None;
    }
    if units < 0 {
        if whole <= 0x8000_0000_0000_0000 {
            Some((-(whole as i128)) as i64)
        } else {
            None
        }
    } else if whole < 0x8000_0000_0000_0000 {
        Some(whole as i64)
    } else {
        None
    }
}

fn whole_in(value: &Value) -> Option<i64>
    ensures { result ≡ whole_in (tree value.now) }
{
    match value {
        Value::Num(n) => whole_i64(n.units()),
        _ => None,
    }
}

fn of_count(n: i64) -> Show
    ensures { result ≡ of_count n }
{
    if n < 0 {
        Show::Slice(n, n.unsigned_abs())
    } else {
        Show::Slice(0, n.unsigned_abs())
    }
}

fn window(start: Option<i64>, count: Option<i64>) -> Option<Show>
    ensures { result ≡ window start count }
{
    let (Some(start), Some(count)) = (start, count) else {
        return None;
    };
    if count > 0 {
        Some(Show::Slice(start, count.unsigned_abs()))
    } else {
        None
    }
}

fn window_in(items: &Items) -> Option<Show>
    ensures { result ≡ window_in items.now }
{
    if items.len() != 2 {
        return None;
    }
    let (Some(start), Some(count)) = (items.get(0), items.get(1)) else {
        return None;
    };
    window(whole_in(start), whole_in(count))
}

fn slice_of(value: &Value) -> Option<Show>
    ensures { result ≡ slice_of (tree value.now) }
{
    match value {
        Value::Num(n) => match whole_i64(n.units()) {
            Some(count) => Some(of_count(count)),
            None => None,
        },
        Value::List(items) => window_in(items),
        _ => None,
    }
}

fn slice_in(members: &Members) -> Option<Show>
    ensures { result ≡ slice_in members.now }
{
    if members.len() != 1 {
        return None;
    }
    match members.pair(0) {
        Some((name, value)) => {
            if name.as_str() == "$slice" {
                slice_of(value)
            } else {
                None
            }
        }
        None => None,
    }
}

fn of_number(units: i128) -> Option<Show>
    ensures { result ≡ show_of (number units) }
{
    if units == ONE {
        Some(Show::On)
    } else if units == 0 {
        Some(Show::Off)
    } else {
        None
    }
}

pub(crate) fn show_of(value: &Value) -> Option<Show>
    ensures { result ≡ show_of (tree value.now) }
{
    match value {
        Value::Bool(b) => Some(if *b { Show::On } else { Show::Off }),
        Value::Num(n) => of_number(n.units()),
        Value::Object(members) => slice_in(members),
        _ => None,
    }
}
