// Printing numbers and dates.
ghost use Rattle.std.specs.Prelude.{◌≡◌, ◌<◌, ◌^◌, ◌++◌, decimal, OnOk, OnErr};
ghost use Rattle.json_text.specs.Fraction.{IsFraction};
ghost use Rattle.json_text.specs.Print.{padded, trimmed, with_point, magnitude_text, number_text, date_text, Extends};

use crate::units::{Fraction, split_units, trimmed_fraction};
use std::alloc::AllocError;

// The digits after the point, zeros in front included: the number that has a 1 in front of them.
#[tactic(auto, using(crate::proofs::Kept::kept))]
fn print_digits(fraction: Fraction, out: &mut Vec<u8>) -> Result<(), AllocError>
    requires { IsFraction fraction }
    ensures ok { OnOk result (out.new.items ≡ out.old.items ++ padded fraction.digits fraction.left) }
    ensures kept { OnErr result (Extends out.old.items out.new.items) }
{
    let mut buffer = itoa::Buffer::new();
    let text = buffer.format(fraction.one + fraction.left);
    out.extend_from_slice(&text.as_bytes()[1..])
}

#[tactic(auto, using(crate::proofs::Kept::kept))]
fn print_fraction(n: u64, out: &mut Vec<u8>) -> Result<(), AllocError>
    requires { n < 10 ^ 18 }
    ensures ok { OnOk result (out.new.items ≡ out.old.items ++ with_point (trimmed 18 n)) }
    ensures kept { OnErr result (Extends out.old.items out.new.items) }
{
    let fraction = trimmed_fraction(n);
    if fraction.digits == 0 {
        return Ok(());
    }
    out.push(b'.')?;
    print_digits(fraction, out)?;
    Ok(())
}

#[tactic(auto, using(crate::proofs::Kept::kept))]
fn print_whole(n: u128, out: &mut Vec<u8>) -> Result<(), AllocError>
    ensures ok { OnOk result (out.new.items ≡ out.old.items ++ decimal n) }
    ensures kept { OnErr result (Extends out.old.items out.new.items) }
{
    let mut buffer = itoa::Buffer::new();
    if n <= u64::MAX as u128 {
        return out.extend_from_slice(buffer.format(n as u64).as_bytes());
    }
    out.extend_from_slice(buffer.format(n).as_bytes())
}

#[tactic(auto, using(crate::proofs::Kept::kept))]
fn print_magnitude(n: u128, out: &mut Vec<u8>) -> Result<(), AllocError>
    ensures ok { OnOk result (out.new.items ≡ out.old.items ++ magnitude_text n) }
    ensures kept { OnErr result (Extends out.old.items out.new.items) }
{
    let (whole, left) = split_units(n);
    print_whole(whole, out)?;
    print_fraction(left, out)?;
    Ok(())
}

#[tactic(auto, using(crate::proofs::Kept::kept))]
pub(crate) fn print_number(units: i128, out: &mut Vec<u8>) -> Result<(), AllocError>
    ensures ok { OnOk result (out.new.items ≡ out.old.items ++ number_text units) }
    ensures kept { OnErr result (Extends out.old.items out.new.items) }
{
    if units < 0 {
        out.push(b'-')?;
    }
    print_magnitude(units.unsigned_abs(), out)?;
    Ok(())
}

#[tactic(auto, using(crate::proofs::Kept::kept))]
pub(crate) fn print_date(date: i64, out: &mut Vec<u8>) -> Result<(), AllocError>
    ensures ok { OnOk result (out.new.items ≡ out.old.items ++ date_text date) }
    ensures kept { OnErr result (Extends out.old.items out.new.items) }
{
    out.extend_from_slice(b"{\"$date\":")?;
    let mut buffer = itoa::Buffer::new();
    out.extend_from_slice(buffer.format(date).as_bytes())?;
    out.push(b'}')?;
    Ok(())
}
