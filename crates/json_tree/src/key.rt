// The key bytes of ids.
ghost use Rattle.std.specs.Prelude.{◌≡◌, ◌≢◌, ◌*◌, ◌+◌, ◌<◌, ◌≤◌, ◌^◌, ◌∷◌, ℤ, length, IfOk, IfErr, MatchOption};
ghost use Rattle.std.specs.List.{fold};
ghost use Rattle.std.specs.Int.{w64};
ghost use Rattle.std.specs.Int.RustNames.{FitsSigned};
ghost use Rattle.json_tree.specs.Num.{IsNumber};
ghost use Rattle.json_tree.specs.Tree.{Tree};
ghost use Rattle.json_tree.specs.Id.{IsId, IsInRange, IsIdOf, top_inverted, number_bytes, date_bytes, key_of};
ghost use Rattle.json_tree.specs.declared.fault.TreeFault.TheVariants.{NoMemory};

use crate::decimal::LIMIT;
use crate::fault::TreeFault;
use crate::id::DocId;
use crate::num::Num;
use crate::value::Value;
use std::alloc::Global;

const TEXT: u8 = 1;

const NUMBER: u8 = 2;

const BOOLEAN: u8 = 3;

const NULL: u8 = 4;

const DATE: u8 = 5;

const NUMBER_TOP: u128 = 1 << 127;

const DATE_TOP: u64 = 1 << 63;

/// The tag byte, and what follows it.
fn key(alloc: Global, tag: u8, rest: &[u8]) -> Result<Vec<u8>, TreeFault>
    ensures ok { IfOk result (λ k. k.items ≡ tag ∷ rest.now) }
    ensures err { IfErr result (λ e. e ≡ NoMemory) }
{
    let mut key = Vec::new(alloc);
    key.push(tag)?;
    key.extend_from_slice(rest)?;
    Ok(key)
}

fn number_bits(units: i128) -> u128
    ensures { result ≡ top_inverted 127 units }
{
    if units < 0 {
        NUMBER_TOP - units.unsigned_abs()
    } else {
        NUMBER_TOP + units.unsigned_abs()
    }
}

fn date_bits(date: i64) -> u64
    ensures { result ≡ top_inverted 63 date }
{
    if date < 0 {
        DATE_TOP - date.unsigned_abs()
    } else {
        DATE_TOP + date.unsigned_abs()
    }
}

/// The number that bytes write, the highest first.
fn read_bytes(bytes: &[u8]) -> u128
    requires { length bytes.now ≤ 16 }
    ensures value { result ≡ fold (λ high byte. high * 256 + byte) 0 bytes.now }
    ensures bound { result < 256 ^ length bytes.now }
{
    let mut n = 0u128;
    'bytes: for b in bytes {
        n = n * 256 + u128::from(*b);
    }
    n
}

/// The number that has these bits.
fn number_at(bits: u128) -> Option<Num>
    ensures { MatchOption result ((n : ℤ) → IsNumber n → top_inverted 127 n ≢ bits) (λ n. top_inverted 127 n ≡ bits) }
{
    if bits < NUMBER_TOP {
        let magnitude = NUMBER_TOP - bits;
        if magnitude < LIMIT {
            Some(Num::of_magnitude(magnitude, true))
        } else {
            None
        }
    } else {
        let magnitude = bits - NUMBER_TOP;
        if magnitude < LIMIT {
            Some(Num::of_magnitude(magnitude, false))
        } else {
            None
        }
    }
}

/// The date that has these bits.
fn date_at(bits: u128) -> i64
    requires { bits < 2 ^ 64 }
    ensures { top_inverted 63 result ≡ bits }
{
    (bits as i128 - (1 << 63)) as i64
}

fn text_id(alloc: Global, rest: &[u8]) -> Result<Option<DocId>, TreeFault>
    ensures ok { IfOk result (λ o. IsIdOf (1 ∷ rest.now) o) }
    ensures err { IfErr result (λ e. e ≡ NoMemory) }
{
    if rest.is_empty() {
        return Ok(None);
    }
    match str::from_utf8(rest) {
        Ok(text) => Ok(Some(DocId::of_text(alloc, text)?)),
        Err(_) => Ok(None),
    }
}

fn number_id(rest: &[u8]) -> Option<DocId>
    ensures { IsIdOf (2 ∷ rest.now) result }
{
    if rest.len() != 16 {
        return None;
    }
    match number_at(read_bytes(rest)) {
        Some(n) => Some(DocId::of_number(&n)),
        None => None,
    }
}

fn boolean_id(rest: &[u8]) -> Option<DocId>
    ensures { IsIdOf (3 ∷ rest.now) result }
{
    if rest.len() != 1 {
        return None;
    }
    match rest[0] {
        0 => Some(DocId {
            value: Value::Bool(false),
        }),
        1 => Some(DocId {
            value: Value::Bool(true),
        }),
        _ => None,
    }
}

fn null_id(rest: &[u8]) -> Option<DocId>
    ensures { IsIdOf (4 ∷ rest.now) result }
{
    if rest.is_empty() {
        Some(DocId { value: Value::Null })
    } else {
        None
    }
}

fn date_id(rest: &[u8]) -> Option<DocId>
    ensures { IsIdOf (5 ∷ rest.now) result }
{
    if rest.len() != 8 {
        return None;
    }
    Some(DocId {
        value: Value::Date(date_at(read_bytes(rest))),
    })
}

impl DocId {
    /// The bytes whose order is the order of ids.
    #[tactic(auto, unfolding(crate::specs::Id::number_bytes, crate::specs::Id::date_bytes))]
    pub fn key_bytes(&self, alloc: Global) -> Result<Vec<u8>, TreeFault>
        ensures ok { IfOk result (λ k. k.items ≡ key_of self.now) }
        ensures err { IfErr result (λ e. e ≡ NoMemory) }
    {
        match &self.value {
            Value::Text(t) => key(alloc, TEXT, t.as_str().as_bytes()),
            Value::Num(n) => key(alloc, NUMBER, &number_bits(n.units()).to_be_bytes()),
            Value::Bool(b) => key(alloc, BOOLEAN, &[u8::from(*b)]),
            Value::Null => key(alloc, NULL, &[]),
            Value::Date(d) => key(alloc, DATE, &date_bits(*d).to_be_bytes()),
            Value::List(_) => unreachable!(),
            Value::Object(_) => unreachable!(),
        }
    }

    /// The id with these key bytes; none where no id has them.
    pub fn from_key_bytes(alloc: Global, bytes: &[u8]) -> Result<Option<DocId>, TreeFault>
        ensures ok { IfOk result (λ o. IsIdOf bytes.now o) }
        ensures err { IfErr result (λ e. e ≡ NoMemory) }
    {
        let Some((tag, rest)) = bytes.split_first() else {
            return Ok(None);
        };
        match *tag {
            TEXT => text_id(alloc, rest),
            NUMBER => Ok(number_id(rest)),
            BOOLEAN => Ok(boolean_id(rest)),
            NULL => Ok(null_id(rest)),
            DATE => Ok(date_id(rest)),
            _ => Ok(None),
        }
    }
}
