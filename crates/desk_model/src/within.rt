ghost use Rattle.std.specs.Prelude.{◌≡◌, ◌≤◌, ◌&&◌, Some, None, decimal, nat_le, if◌then◌else◌};
ghost use Rattle.desk_model.specs.Forms.{are_units, is_count, is_factor, is_year};

use crate::limits::{
    COUNT_LIMIT, FIRST_SHIPMENT_YEAR, LAST_SHIPMENT_YEAR, UNITS_LIMIT, WHOLE_FACTOR,
};
use std::fmt;
use std::marker::Model;

/// A whole number from `LEAST` to `GREATEST`. Contracts see the number.
#[derive(Clone, Copy, Debug, PartialEq, Eq, PartialOrd, Ord)]
pub struct Within<const LEAST: u64, const GREATEST: u64> {
    number: u64,
}

/// How many of the child one of the parent holds: 1 to 1,000,000.
pub type Count = Within<1, COUNT_LIMIT>;

/// How much of a substance a rule counts, in millionths of its mass: 0 to 1,000,000.
pub type Factor = Within<0, WHOLE_FACTOR>;

/// The calendar year of a shipment: 2008 to 2099.
pub type Year = Within<FIRST_SHIPMENT_YEAR, LAST_SHIPMENT_YEAR>;

/// How many units an edit ships or takes off: 1 to 1,000,000,000,000.
pub type Units = Within<1, UNITS_LIMIT>;

impl<const LEAST: u64, const GREATEST: u64> Model for Within<LEAST, GREATEST> {
    ghost use Rattle.std.specs.Prelude.{ℕ, ◌≤◌};

    ghost Value = { ℕ };

    ghost view = { λ w. w.number };

    ghost invariant = { λ w. (LEAST ≤ w.number) × (w.number ≤ GREATEST) };

    ghost inverse = { λ n. record { number = n } };
}

impl<const LEAST: u64, const GREATEST: u64> Within<LEAST, GREATEST> {
    /// The number, unless it is out of the range.
    fn new(number: u64) -> Option<Within<LEAST, GREATEST>>
        ensures { result ≡ (if nat_le LEAST number && nat_le number GREATEST then Some number else None) }
    {
        if LEAST <= number && number <= GREATEST {
            Some(Within { number })
        } else {
            None
        }
    }

    /// The number.
    pub fn get(self) -> u64
        ensures value { result ≡ self.entry }
        ensures least { LEAST ≤ self.entry }
        ensures greatest { self.entry ≤ GREATEST }
    {
        self.number
    }
}

/// The number in decimal digits.
impl<const LEAST: u64, const GREATEST: u64> fmt::Display for Within<LEAST, GREATEST> {
    ghost output = { λ number. Some (decimal number) };

    fn fmt<W: fmt::Write>(&self, f: &mut fmt::Formatter<W>) -> fmt::Result {
        self.number.fmt(f)
    }
}

/// The count of a line, unless the number is none.
pub fn count_of(number: u64) -> Option<Count>
    ensures { result ≡ (if is_count number then Some number else None) }
{
    Within::new(number)
}

/// The factor of a substance for a rule, unless the number is none.
pub fn factor_of(number: u64) -> Option<Factor>
    ensures { result ≡ (if is_factor number then Some number else None) }
{
    Within::new(number)
}

/// The year of a shipment, unless the number is none.
pub fn year_of(number: u64) -> Option<Year>
    ensures { result ≡ (if is_year number then Some number else None) }
{
    Within::new(number)
}

/// The units of a shipment, unless the number is none.
pub fn units_of(number: u64) -> Option<Units>
    ensures { result ≡ (if are_units number then Some number else None) }
{
    Within::new(number)
}
