// Whole counts of units of 10^-18: their whole part, and the digits of the fraction that is left.
ghost use Rattle.std.specs.Prelude.{◌≡◌, ◌<◌, ◌≤◌, ◌/◌, ◌%◌, ◌^◌};
ghost use Rattle.json_text.specs.Print.{padded, trimmed};
ghost use Rattle.json_text.specs.Fraction.{IsFraction};

// How many units 1 has: 2^18 times 5^18.
pub(crate) const UNIT: u128 = 1_000_000_000_000_000_000;

const TWOS: u128 = 262_144;

const FIVES: u64 = 3_814_697_265_625;

// 2^18 times 2^64.
const NEAR: u128 = 4_835_703_278_458_516_698_824_704;

// The whole part, and the units that are left. What is near is divided in 64 bits.
#[inline]
pub(crate) fn split_units(n: u128) -> (u128, u64)
    ensures whole { result.0 ≡ n / 10 ^ 18 }
    ensures left { result.1 ≡ n % 10 ^ 18 }
{
    if n >= NEAR {
        return (n / UNIT, (n % UNIT) as u64);
    }
    let high = (n / TWOS) as u64;
    let low = (n % TWOS) as u64;
    ((high / FIVES) as u128, high % FIVES * 262_144 + low)
}

// A fraction of 1: so many units of which `one`, 10 to the count of its digits, make 1.
#[derive(Clone, Copy)]
pub(crate) struct Fraction {
    pub(crate) left: u64,
    pub(crate) one: u64,
    pub(crate) digits: u32,
}

// The same with so many digits fewer, where those are zeros.
#[inline(always)]
fn shortened(fraction: Fraction, by: u32, power: u64) -> Fraction
    requires fraction { IsFraction fraction }
    requires power { power ≡ 10 ^ by }
    ensures fraction { IsFraction result }
    ensures few { result.digits ≤ fraction.digits }
    ensures same { trimmed result.digits result.left ≡ trimmed fraction.digits fraction.left }
{
    if fraction.digits < by || fraction.left % power != 0 {
        return fraction;
    }
    Fraction {
        left: fraction.left / power,
        one: fraction.one / power,
        digits: fraction.digits - by,
    }
}

// The fraction of so many units, without the zeros at its end.
pub(crate) fn trimmed_fraction(n: u64) -> Fraction
    requires { n < 10 ^ 18 }
    ensures fraction { IsFraction result }
    ensures few { result.digits ≤ 18 }
    ensures digits { padded result.digits result.left ≡ trimmed 18 n }
{
    if n == 0 {
        return Fraction {
            left: 0,
            one: 1,
            digits: 0,
        };
    }
    let whole = Fraction {
        left: n,
        one: 1_000_000_000_000_000_000,
        digits: 18,
    };
    let nine = shortened(whole, 9, 1_000_000_000);
    let four = shortened(nine, 4, 10_000);
    without_zeros(shortened(four, 2, 100))
}

// The same, a zero at a time.
fn without_zeros(fraction: Fraction) -> Fraction
    requires { IsFraction fraction }
    ensures fraction { IsFraction result }
    ensures few { result.digits ≤ fraction.digits }
    ensures digits { padded result.digits result.left ≡ trimmed fraction.digits fraction.left }
{
    let mut left = fraction.left;
    let mut one = fraction.one;
    let mut digits = fraction.digits;
    'zeros: while digits > 0 && left % 10 == 0 {
        left /= 10;
        one /= 10;
        digits -= 1;
    }
    Fraction { left, one, digits }
}
