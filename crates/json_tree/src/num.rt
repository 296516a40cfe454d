// Decimal numbers: exact sums and products, and their order.
ghost use Rattle.std.specs.Prelude.{◌≡◌, ◌<◌, ◌^◌, ok_or, if◌then◌else◌, pos, neg_ℤ};
ghost use Rattle.std.specs.Ordering.{int_cmp};
ghost use Rattle.json_tree.specs.Num.{IsNumber, parts_value, sum_of, product_of};
ghost use Rattle.json_tree.specs.declared.fault.TreeFault.TheVariants.{NumberRange};

use crate::decimal::{self, LIMIT};
use crate::fault::TreeFault;
use std::cmp::Ordering;
use std::marker::Model;

/// A decimal number, kept as its whole count of units of 10^-18.
#[derive(Clone, Copy, Debug, PartialEq, Eq, PartialOrd, Ord)]
pub struct Num {
    units: i128,
}

impl Model for Num {
    ghost use Rattle.std.specs.Prelude.{ℤ};
    ghost use Rattle.json_tree.specs.Num.{IsNumber};

    ghost Value = { ℤ };

    ghost view = { λ n. n.units };

    ghost invariant = { λ n. IsNumber n.units };

    ghost inverse = { λ z. record { units = z } };
}

impl Num {
    /// The number of so many units.
    pub fn of_units(units: i128) -> Num
        requires { IsNumber units }
        ensures { result ≡ units }
    {
        Num { units }
    }

    /// The number of a magnitude in units, below zero or not.
    pub fn of_magnitude(magnitude: u128, negative: bool) -> Num
        requires { magnitude < 10 ^ 38 }
        ensures { result ≡ (if negative then neg_ℤ (pos magnitude) else pos magnitude) }
    {
        let units = magnitude as i128;
        Num {
            units: if negative { -units } else { units },
        }
    }

    /// The coefficient times ten to the power, refused exactly where that is no number.
    #[tactic(auto, unfolding(crate::specs::Num::units_of))]
    pub fn of_parts(coefficient: i128, power: i32) -> Result<Num, TreeFault>
        ensures { result ≡ ok_or (parts_value coefficient power) NumberRange }
    {
        match decimal::scale_near(coefficient.unsigned_abs(), i64::from(power) + 18) {
            Some(magnitude) => Ok(Num::of_magnitude(magnitude, coefficient < 0)),
            None => Err(TreeFault::NumberRange),
        }
    }

    /// How many units of 10^-18 it has.
    pub fn units(&self) -> i128
        ensures value { result ≡ self.now }
        ensures range { IsNumber result }
    {
        self.units
    }

    /// The exact sum, refused exactly where it leaves the range.
    pub fn add(&self, other: &Num) -> Result<Num, TreeFault>
        ensures { result ≡ ok_or (sum_of self.now other.now) NumberRange }
    {
        match self.units.checked_add(other.units) {
            Some(units) if units.unsigned_abs() < LIMIT => Ok(Num { units }),
            _ => Err(TreeFault::NumberRange),
        }
    }

    /// The exact product, refused exactly where it is no number or the coefficients' product leaves
    /// the range.
    pub fn mul(&self, other: &Num) -> Result<Num, TreeFault>
        ensures { result ≡ ok_or (product_of self.now other.now) NumberRange }
    {
        match decimal::product(self.units.unsigned_abs(), other.units.unsigned_abs()) {
            Some(magnitude) => Ok(Num::of_magnitude(
                magnitude,
                (self.units < 0) != (other.units < 0),
            )),
            None => Err(TreeFault::NumberRange),
        }
    }

    /// The order of the numbers.
    pub fn cmp(&self, other: &Num) -> Ordering
        ensures { result ≡ int_cmp self.now other.now }
    {
        self.units.cmp(&other.units)
    }
}
