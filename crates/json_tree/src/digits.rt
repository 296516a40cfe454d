// The exact value of written digits: no more than 38 of them are kept, and what is lost is noticed.
ghost use Rattle.std.specs.Prelude.{◌≡◌, ℕ, ℤ, ◌+◌, ◌*◌, ◌^◌, ◌<◌, ◌≤◌, ◌++◌, length, Some, None, IsTrue, option_and_then, IfSome, pos, negsuc, ◌-ℤ◌, ◌≤ℤ◌};
ghost use Rattle.std.specs.List.{list_all};
ghost use Rattle.std.specs.Char.{is_ascii_digit};
ghost use Rattle.std.specs.Str.Parse.{digits_value, digits_value_after};
ghost use Rattle.json_tree.specs.Cut.{IsCut};
ghost use Rattle.json_tree.specs.Rounded.{IsRounded};
ghost use Rattle.json_tree.specs.Num.{in_range, scaled, units_of};

use crate::decimal::{LIMIT, scale_near};

// A coefficient times a power of ten, and whether a rest below that power is lost.
#[derive(Clone, Copy)]
struct Rounded {
    coefficient: u128,
    zeros: u128,
    lost: bool,
}

const ZERO: Rounded = Rounded {
    coefficient: 0,
    zeros: 0,
    lost: false,
};

fn with_digit(r: Rounded, digit: u8) -> Rounded
    requires digit { digit < 10 }
    requires room { r.zeros < 2 ^ 100 }
    requires fits { r.coefficient < LIMIT }
    ensures value { (v : ℕ) → IsRounded v r → IsRounded (v * 10 + digit) result }
    ensures zeros { result.zeros ≤ r.zeros + 1 }
    ensures fits { result.coefficient < LIMIT }
{
    if r.zeros == 0 && r.coefficient < LIMIT / 10 {
        return Rounded {
            coefficient: r.coefficient * 10 + digit as u128,
            ..r
        };
    }
    let lost = r.lost | (digit != 0);
    Rounded {
        coefficient: r.coefficient,
        zeros: r.zeros + 1,
        lost,
    }
}

// The number that the digits write when they follow those of r.
fn with_digits(r: Rounded, digits: &[u8]) -> Rounded
    requires digits { IsTrue (list_all is_ascii_digit digits.now) }
    requires room { r.zeros < 2 ^ 90 }
    requires fits { r.coefficient < LIMIT }
    ensures value { (v : ℕ) → IsRounded v r → IsRounded (digits_value_after 10 v digits.now) result }
    ensures zeros { result.zeros ≤ r.zeros + length digits.now }
    ensures fits { result.coefficient < LIMIT }
{
    let mut r = r;
    'digits: for b in digits {
        r = with_digit(r, *b - b'0');
    }
    r
}

// The units that the value has with this power, where it is a number.
fn units(r: Rounded, power: i128) -> Option<u128>
    requires power { (negsuc (2 ^ 100) ≤ℤ power) × (power ≤ℤ pos (2 ^ 100)) }
    requires zeros { r.zeros < 2 ^ 100 }
    requires fits { r.coefficient < LIMIT }
    ensures value { (v : ℕ) → IsRounded v r
        → result ≡ option_and_then in_range (scaled v power) }
    ensures range { IfSome result (λ n. n < LIMIT) }
{
    if r.lost {
        return None;
    }
    if r.coefficient == 0 {
        return Some(0);
    }
    let power = power + r.zeros as i128;
    if power < -38 {
        return None;
    }
    if power > 38 {
        return None;
    }
    scale_near(r.coefficient, power as i64)
}

// The number that the digits write when they follow those of n.
fn with_few_digits(n: u64, digits: &[u8]) -> u64
    requires digits { IsTrue (list_all is_ascii_digit digits.now) }
    requires few { digits_value_after 10 n digits.now < 10 ^ 18 }
    ensures { result ≡ digits_value_after 10 n digits.now }
{
    let mut n = n;
    'digits: for b in digits {
        n = n * 10 + (*b - b'0') as u64;
    }
    n
}

// The units that a number of few digits has with this power, where it is one.
fn few_units(n: u64, power: i128) -> Option<u128>
    requires power { (negsuc (2 ^ 100) ≤ℤ power) × (power ≤ℤ pos (2 ^ 100)) }
    requires few { n < 10 ^ 18 }
    ensures value { result ≡ option_and_then in_range (scaled n power) }
    ensures range { IfSome result (λ n. n < LIMIT) }
{
    let digits = Rounded {
        coefficient: n as u128,
        zeros: 0,
        lost: false,
    };
    units(digits, power)
}

/// The units of the number whose digits are these, the fraction's behind the point, times ten to the
/// exponent, where that is a number. An exponent that is far out may be cut off.
pub fn digits_units(whole: &[u8], fraction: &[u8], exponent: i128) -> Option<u128>
    requires range { (negsuc (10 ^ 22) ≤ℤ exponent) × (exponent ≤ℤ pos (10 ^ 22)) }
    requires whole { IsTrue (list_all is_ascii_digit whole.now) }
    requires fraction { IsTrue (list_all is_ascii_digit fraction.now) }
    ensures value { (e : ℤ) → IsCut e exponent
        → result ≡ units_of (record { coefficient = digits_value 10 (whole.now ++ fraction.now); power = e -ℤ pos (length fraction.now) }) }
    ensures range { IfSome result (λ n. n < 10 ^ 38) }
{
    let power = exponent - fraction.len() as i128 + 18;
    if whole.len() <= 18 && fraction.len() <= 18 - whole.len() {
        return few_units(with_few_digits(with_few_digits(0, whole), fraction), power);
    }
    units(with_digits(with_digits(ZERO, whole), fraction), power)
}
