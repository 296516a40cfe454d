// Numerals: their parts, and what they spell.
ghost use Rattle.std.specs.Prelude.{◌≡◌, ℕ, ℤ, pos, negsuc, ◌+◌, ◌-◌, ◌*◌, ◌^◌, ◌<◌, ◌≤◌, ◌+ℤ◌, ◌-ℤ◌, ◌≤ℤ◌, length, take, drop, option_map, IfSome, MatchOption, Some, None, IsTrue, List, ◌∷◌};
ghost use Rattle.std.specs.List.{prefix_len, list_all};
ghost use Rattle.std.specs.Char.{is_ascii_digit};
ghost use Rattle.std.specs.Str.Parse.{digits_value, digits_value_after};
ghost use Rattle.json_text.specs.Numeral.{is_numeral_byte, digits, after_digits, is_whole, fraction_at, whole_digits, signed_digits, exponent_of, decimal_of, unsigned, numeral};
ghost use Rattle.json_tree.specs.Num.{units_of};
ghost use Rattle.json_tree.specs.Cut.{IsCut};
ghost use Rattle.json_text.specs.SplitNumeral.{IsCutNumber, WholeRead, IsExponent, IsSplitNumeral};
ghost use Rattle.json_text.specs.ShortNumeral.{BeginsWithDigits, Stops, IsShortFraction, IsShort};

use crate::units::UNIT;
use json_tree::{Num, digits_units};

// Past this an exponent puts any digits out of range.
const FAR: u128 = 1_000_000_000_000_000_000_000;

fn is_numeral_byte(b: u8) -> bool
    ensures { result ≡ is_numeral_byte b }
{
    b.is_ascii_digit() || b == b'+' || b == b'-' || b == b'.' || b == b'e' || b == b'E'
}

// How many bytes the numeral has that the bytes begin with.
#[tactic(auto, using(crate::proofs::Runs::runs))]
pub(crate) fn numeral_len(bytes: &[u8]) -> usize
    ensures { result ≡ prefix_len is_numeral_byte bytes.now }
{
    let mut len = 0;
    'run: while len < bytes.len() && is_numeral_byte(bytes[len]) {
        len += 1;
    }
    len
}

#[tactic(auto, using(crate::proofs::Runs::runs))]
fn digits_len(bytes: &[u8]) -> usize
    ensures { result ≡ prefix_len is_ascii_digit bytes.now }
{
    let mut len = 0;
    'run: while len < bytes.len() && bytes[len].is_ascii_digit() {
        len += 1;
    }
    len
}

// The number that the digits at the front write, at most 18 of them, and how many they are.
#[inline(always)]
fn few_digits(bytes: &[u8]) -> (u64, usize)
    ensures { BeginsWithDigits bytes.now result.0 result.1 }
{
    let mut n = 0;
    let mut len = 0;
    'digits: while len < bytes.len() && len < 18 && bytes[len].is_ascii_digit() {
        n = n * 10 + (bytes[len] - b'0') as u64;
        len += 1;
    }
    (n, len)
}

// Whether a numeral that stood before the bytes has ended.
#[inline(always)]
fn has_ended(bytes: &[u8]) -> bool
    ensures { IsTrue result → Stops bytes.now }
{
    match bytes {
        [] => true,
        [b, ..] => !is_numeral_byte(*b),
    }
}

#[inline(always)]
fn after_point(bytes: &[u8]) -> Option<&[u8]>
    ensures { IfSome result (λ rest. bytes.now ≡ 46 ∷ rest.now) }
{
    match bytes {
        [b'.', rest @ ..] => Some(rest),
        _ => None,
    }
}

fn ten_to(power: u64) -> u64
    requires { power ≤ 18 }
    ensures value { result ≡ 10 ^ power }
    ensures small { result ≤ 10 ^ 18 }
{
    10u64.pow(power as u32)
}

// What a point and the digits after it add in units, where they are at most 18, and how many bytes these are.
#[inline(always)]
#[tactic(auto, using(crate::proofs::ShortNumeral::no_fraction))]
fn short_fraction(bytes: &[u8]) -> Option<(u64, usize)>
    ensures { IfSome result (λ p. IsShortFraction bytes.now p.0 p.1) }
{
    let Some(rest) = after_point(bytes) else {
        return if has_ended(bytes) { Some((0, 0)) } else { None };
    };
    let (n, len) = few_digits(rest);
    if len == 0 {
        return None;
    }
    let (_, after) = rest.split_at(len);
    if !has_ended(after) {
        return None;
    }
    Some((n * ten_to(18 - len as u64), len + 1))
}

// The units of the numeral at the front and its length, where it is digits or digits, a point and digits,
// at most 18 on either side.
#[inline(always)]
pub(crate) fn short_units(bytes: &[u8]) -> Option<(u128, usize)>
    ensures { IfSome result (λ p. IsShort bytes.now p.0 p.1) }
{
    let (n, len) = few_digits(bytes);
    let (digits, rest) = bytes.split_at(len);
    if !is_whole(digits) {
        return None;
    }
    let (fraction, more) = short_fraction(rest)?;
    Some((n as u128 * UNIT + fraction as u128, len + more))
}

// The digits at the front, and what follows them.
#[tactic(auto, using(crate::proofs::Runs::digit_runs))]
fn split_digits(bytes: &[u8]) -> (&[u8], &[u8])
    ensures front { result.0.now ≡ digits bytes.now }
    ensures rest { result.1.now ≡ after_digits bytes.now }
    ensures digits { IsTrue (list_all is_ascii_digit result.0.now) }
{
    let len = digits_len(bytes);
    bytes.split_at(len)
}

fn is_whole(digits: &[u8]) -> bool
    ensures { result ≡ is_whole digits.now }
{
    match digits {
        [] => false,
        [first, rest @ ..] => *first != b'0' || rest.is_empty(),
    }
}

// The digits after the point, and what follows them.
fn fraction_at(bytes: &[u8]) -> Option<(&[u8], &[u8])>
    ensures value { option_map (λ p. (p.0.now, p.1.now)) result ≡ fraction_at bytes.now }
    ensures digits { IfSome result (λ p. IsTrue (list_all is_ascii_digit p.0.now)) }
{
    match bytes {
        [] => Some((bytes, bytes)),
        [b'.', rest @ ..] => {
            let (fraction, after) = split_digits(rest);
            if fraction.is_empty() {
                return None;
            }
            Some((fraction, after))
        }
        _ => Some((&bytes[..0], bytes)),
    }
}

// The number that the digits write, cut off where it is large.
fn cut_number(digits: &[u8]) -> u128
    requires { IsTrue (list_all is_ascii_digit digits.now) }
    ensures { IsCutNumber (digits_value 10 digits.now) result }
{
    let mut n = 0;
    'digits: for b in digits {
        if n < FAR {
            n = n * 10 + (*b - b'0') as u128;
        }
    }
    n
}

fn all_digits(bytes: &[u8]) -> bool
    ensures { result ≡ list_all is_ascii_digit bytes.now }
{
    bytes.iter().all(|b| b.is_ascii_digit())
}

fn whole_digits(bytes: &[u8]) -> Option<u128>
    ensures { MatchOption result (whole_digits bytes.now ≡ None) (WholeRead (whole_digits bytes.now)) }
{
    match bytes {
        [] => None,
        _ => {
            if !all_digits(bytes) {
                return None;
            }
            Some(cut_number(bytes))
        }
    }
}

fn signed_digits(bytes: &[u8]) -> Option<i128>
    ensures { MatchOption result (signed_digits bytes.now ≡ None) (IsExponent (signed_digits bytes.now)) }
{
    match bytes {
        [] => None,
        [b'-', rest @ ..] => match whole_digits(rest) {
            Some(n) => Some(-(n as i128)),
            None => None,
        },
        [b'+', rest @ ..] => match whole_digits(rest) {
            Some(n) => Some(n as i128),
            None => None,
        },
        _ => match whole_digits(bytes) {
            Some(n) => Some(n as i128),
            None => None,
        },
    }
}

fn exponent_of(bytes: &[u8]) -> Option<i128>
    ensures { MatchOption result (exponent_of bytes.now ≡ None) (IsExponent (exponent_of bytes.now)) }
{
    match bytes {
        [] => Some(0),
        [b'e' | b'E', rest @ ..] => signed_digits(rest),
        _ => None,
    }
}

#[derive(Clone, Copy)]
struct SplitNumeral<'a> {
    whole: &'a [u8],
    fraction: &'a [u8],
    exponent: i128,
}

// A numeral with no sign.
fn parts_of(bytes: &[u8]) -> Option<SplitNumeral<'_>>
    ensures { MatchOption result (unsigned bytes.now ≡ None) (IsSplitNumeral bytes.now) }
{
    let (whole, rest) = split_digits(bytes);
    if !is_whole(whole) {
        return None;
    }
    let Some((fraction, rest)) = fraction_at(rest) else {
        return None;
    };
    let Some(exponent) = exponent_of(rest) else {
        return None;
    };
    Some(SplitNumeral {
        whole,
        fraction,
        exponent,
    })
}

fn magnitude(parts: SplitNumeral<'_>) -> Option<u128>
    requires range { (negsuc (10 ^ 22) ≤ℤ parts.exponent) × (parts.exponent ≤ℤ pos (10 ^ 22)) }
    requires whole { IsTrue (list_all is_ascii_digit parts.whole.now) }
    requires fraction { IsTrue (list_all is_ascii_digit parts.fraction.now) }
    ensures value { (e : ℤ) → IsCut e parts.entry.exponent
        → result ≡ units_of (decimal_of parts.entry.whole.now parts.entry.fraction.now e) }
    ensures range { IfSome result (λ n. n < 10 ^ 38) }
{
    digits_units(parts.whole, parts.fraction, parts.exponent)
}

fn unsigned(bytes: &[u8]) -> Option<Option<u128>>
    ensures value { result ≡ option_map units_of (unsigned bytes.now) }
    ensures range { IfSome result (λ o. IfSome o (λ n. n < 10 ^ 38)) }
{
    Some(magnitude(parts_of(bytes)?))
}

#[tactic(auto, unfolding(crate::specs::Numeral::numeral))]
/// What the bytes of a numeral spell: no value at all, or one that is a number or isn't.
pub(crate) fn numeral(bytes: &[u8]) -> Option<Option<Num>>
    ensures { result ≡ numeral bytes.now }
{
    match bytes {
        [] => None,
        [b'-', rest @ ..] => match unsigned(rest)? {
            Some(n) => Some(Some(Num::of_units(-(n as i128)))),
            None => Some(None),
        },
        _ => match unsigned(bytes)? {
            Some(n) => Some(Some(Num::of_units(n as i128))),
            None => Some(None),
        },
    }
}
