// Exact values, in units of 10^-18: no step leaves 128 bits.
ghost use Rattle.std.specs.Prelude.{◌≡◌, ◌*◌, ◌/◌, ◌%◌, ◌^◌, ◌<◌, ◌≤◌, ◌==◌, ◌⊎◌, ◌≢◌, nat_lt, Some, None, option_and_then, if◌then◌else◌, IfSome, negsuc};
ghost use Rattle.json_tree.specs.Num.{in_range, scaled, coefficient_of, magnitude_product};

/// No number has so many units.
pub(crate) const LIMIT: u128 = 100_000_000_000_000_000_000_000_000_000_000_000_000;

/// Multiplies by ten to the power.
fn times(n: u128, power: u32) -> Option<u128>
    requires { n < LIMIT }
    ensures { result ≡ in_range (n * 10 ^ power) }
{
    let mut n = n;
    'tens: for _i in 0..power {
        if n >= LIMIT / 10 {
            return None;
        }
        n *= 10;
    }
    Some(n)
}

/// Divides by ten to the power, where that leaves no rest.
fn over(n: u128, power: u32) -> Option<u128>
    ensures { result ≡ (if n % 10 ^ power == 0 then Some (n / 10 ^ power) else None) }
{
    let mut n = n;
    'tens: for _i in 0..power {
        if n % 10 != 0 {
            return None;
        }
        n /= 10;
    }
    Some(n)
}

// The number times ten to the power, where that is whole and a magnitude that a number may have.
pub(crate) fn scale_near(n: u128, power: i64) -> Option<u128>
    ensures value { result ≡ option_and_then in_range (scaled n power) }
    ensures range { IfSome result (λ n. n < LIMIT) }
{
    if n == 0 {
        return Some(0);
    }
    if power > 38 {
        return None;
    }
    if power < -39 {
        return None;
    }
    if power < 0 {
        over(n, (-power) as u32)
    } else if n < LIMIT {
        times(n, power as u32)
    } else {
        None
    }
}

/// A magnitude without its trailing zeros, at most 18 of them, and how many were taken off.
fn split_zeros(magnitude: u128) -> (u128, u32)
    ensures whole { result.0 * 10 ^ result.1 ≡ magnitude }
    ensures most { result.1 ≤ 18 }
    ensures rest { (result.1 ≡ 18) ⊎ (result.0 % 10 ≢ 0) }
{
    let mut left = magnitude;
    let mut taken = 0u32;
    'zeros: while taken < 18 && left % 10 == 0 {
        left /= 10;
        taken += 1;
    }
    (left, taken)
}

/// The product of two magnitudes.
pub(crate) fn product(a: u128, b: u128) -> Option<u128>
    ensures value { result ≡ magnitude_product a b }
    ensures range { IfSome result (λ n. n < LIMIT) }
{
    let (c, s) = split_zeros(a);
    let (d, t) = split_zeros(b);
    match c.checked_mul(d) {
        Some(product) if product < LIMIT => scale_near(product, i64::from(s + t) - 18),
        _ => None,
    }
}
