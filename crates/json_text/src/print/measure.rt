// The length of the text that a value prints as.
ghost use Rattle.std.specs.Prelude.{◌≡◌, ◌==◌, ◌+◌, ◌<◌, ◌≤◌, ◌^◌, length};
ghost use Rattle.std.specs.List.{flat_map};
ghost use Rattle.json_tree.specs.Tree.{list, object, elements_of, members_of};
ghost use Rattle.json_tree.specs.View.{tree};
ghost use Rattle.json_text.specs.Print.{capped, escaped, string_text, trimmed, with_point, magnitude_text, number_text, boolean_text, date_text, separator, text_of};

use crate::units::{split_units, trimmed_fraction};
use json_tree::{Items, Members, Value};

fn plus(a: u64, b: u64) -> u64
    ensures { result ≡ capped (a + b) }
{
    a.saturating_add(b)
}

#[tactic(auto, unfolding(crate::specs::Print::escaped))]
fn byte_len(b: u8) -> u64
    ensures { result ≡ length (escaped b) }
{
    match b {
        b'"' | b'\\' | 8..=10 | 12 | 13 => 2,
        0..0x20 => 6,
        _ => 1,
    }
}

fn string_len(text: &str) -> u64
    ensures { result ≡ capped (length (string_text text.now)) }
{
    let mut len = 1;
    'bytes: for b in text.as_bytes() {
        len = plus(len, byte_len(*b));
    }
    plus(len, 1)
}

fn fraction_len(n: u64) -> u64
    requires { n < 10 ^ 18 }
    ensures value { result ≡ length (with_point (trimmed 18 n)) }
    ensures small { result ≤ 19 }
{
    let fraction = trimmed_fraction(n);
    if fraction.digits == 0 {
        return 0;
    }
    fraction.digits as u64 + 1
}

fn number_len(units: i128) -> u64
    ensures { result ≡ length (number_text units) }
{
    let (whole, left) = split_units(units.unsigned_abs());
    let mut buffer = itoa::Buffer::new();
    let len = buffer.format(whole).len() as u64 + fraction_len(left);
    if units < 0 {
        return len + 1;
    }
    len
}

fn date_len(date: i64) -> u64
    ensures { result ≡ length (date_text date) }
{
    let mut buffer = itoa::Buffer::new();
    buffer.format(date).len() as u64 + 10
}

fn separator_len(place: usize) -> u64
    ensures { result ≡ length (separator (place == 0)) }
{
    if place > 0 { 1 } else { 0 }
}

/// The length of the text that the value prints as, or the last number of 64 bits where it is larger.
#[cycle(measure)]
#[tactic(auto, using(crate::proofs::ListSteps::sizes, crate::proofs::ListSteps::steps))]
pub fn text_len(value: &Value) -> u64
    ensures { result ≡ capped (length (text_of (tree value.now))) }
{
    match value {
        Value::Null => 4,
        Value::Bool(true) => 4,
        Value::Bool(false) => 5,
        Value::Num(n) => number_len(n.units()),
        Value::Text(text) => string_len(text.as_str()),
        Value::Date(date) => date_len(*date),
        Value::List(elements) => elements_len(elements),
        Value::Object(members) => members_len(members),
    }
}

#[cycle(measure)]
#[tactic(auto, using(crate::proofs::ListSteps::sizes, crate::proofs::ListSteps::steps))]
fn elements_len(elements: &Items) -> u64
    ensures { result ≡ capped (length (text_of (list (elements_of elements.now)))) }
{
    let mut len = 1;
    let values = elements.as_slice();
    for i in 0..values.len() {
        len = plus(len, separator_len(i));
        len = plus(len, text_len(&values[i]));
    }
    plus(len, 1)
}

#[cycle(measure)]
#[tactic(auto, using(crate::proofs::ListSteps::sizes, crate::proofs::ListSteps::steps))]
fn members_len(members: &Members) -> u64
    ensures { result ≡ capped (length (text_of (object (members_of members.now)))) }
{
    let mut len = 1;
    let pairs = members.as_slice();
    for i in 0..pairs.len() {
        let pair = &pairs[i];
        len = plus(len, separator_len(i));
        len = plus(len, string_len(pair.0.as_str()));
        len = plus(len, 1);
        len = plus(len, text_len(&pair.1));
    }
    plus(len, 1)
}
