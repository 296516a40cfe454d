// Whole numbers in a command.
ghost use Rattle.std.specs.Prelude.{◌≡◌};
ghost use Rattle.json_tree.specs.Tree.{number};
ghost use Rattle.json_tree.specs.View.{tree};
ghost use Rattle.cmd_grammar.specs.Parts.{whole_in, number_in};

use crate::members::option;
use json_tree::{Num, Value};

const UNIT: u128 = 1_000_000_000_000_000_000;

const BOUND: u128 = 1 << 31;

fn whole_of(n: &Num) -> Option<u64>
    ensures { result ≡ whole_in (number n.now) }
{
    let units = n.units();
    if units < 0 {
        return None;
    }
    let magnitude = units.unsigned_abs();
    if magnitude % UNIT != 0 || magnitude / UNIT >= BOUND {
        return None;
    }
    Some((magnitude / UNIT) as u64)
}

/// A whole number under 2^31.
pub(crate) fn whole_in(value: &Value) -> Option<u64>
    ensures { result ≡ whole_in (tree value.now) }
{
    match value {
        Value::Num(n) => whole_of(n),
        _ => None,
    }
}

/// An option that is a number; one that is absent is 0.
pub(crate) fn number_in(command: &Value, name: &str) -> u64
    ensures { result ≡ number_in name.now (tree command.now) }
{
    match option(command, name) {
        Some(value) => whole_in(value).unwrap_or(0),
        None => 0,
    }
}
