ghost use Rattle.std.specs.Prelude.{◌≡◌, ◌+◌, ◌%◌, ◌≤◌, true, pos, IsTrue, Some, None, if◌then◌else◌};
ghost use Rattle.jiff.specs.Words.{IsBetween};
ghost use Rattle.desk_text.specs.Civil.{date_from_civil};
ghost use Rattle.desk_text.specs.Day.{is_calendar_date, is_in_profile, date_text, months_after};

use crate::number::short_value_of;
use crate::picture::fits;
use jiff::{ToSpan, civil};
use std::error::Error;
use std::marker::Model;
use std::{fmt, str};

/// The first year of which the desk takes days.
pub const FIRST_YEAR: u16 = 2000;

/// The last year of which the desk takes days.
pub const LAST_YEAR: u16 = 2099;

/// A day from 2000-01-01 to 2099-12-31. The earlier day is the less.
#[derive(Clone, Copy, Debug, PartialEq, Eq, PartialOrd, Ord)]
pub struct Day {
    year: u16,
    month: u8,
    day: u8,
}

impl Model for Day {
    ghost use Rattle.std.specs.Prelude.{IsTrue};
    ghost use Rattle.desk_text.specs.Day.{Date, is_day};

    ghost Value = { Date };

    ghost view = { λ d. record { year = d.year; month = d.month; day = d.day } };

    ghost invariant = { λ d. IsTrue (is_day (record { year = d.year; month = d.month; day = d.day })) };

    ghost inverse = { λ d. record { year = d.year; month = d.month; day = d.day } };
}

/// Why bytes are no day.
#[derive(Clone, Copy, Debug, PartialEq, Eq)]
pub enum DayFault {
    /// The bytes aren't four digits, `-`, two digits, `-`, two digits.
    Shape,
    /// The Gregorian calendar has no such day.
    NoSuchDay,
    /// The day is before 2000-01-01 or after 2099-12-31.
    OutOfProfile,
}

impl Day {
    ghost use Rattle.desk_text.specs.Day.{day_of, is_askable, is_day, six_months_after};
    ghost use Rattle.desk_text.specs.Forms.{an_askable_day};

    /// The first day on which a question may be asked.
    pub const FIRST_ASKABLE: Day = Day {
        year: 2014,
        month: 7,
        day: 22,
    };

    /// The day that these bytes write as `YYYY-MM-DD`. The faults are tried in the order in which `DayFault` lists
    /// them.
    #[tactic(auto, unfolding(crate::specs::Day::day_of))]
    pub fn read(bytes: &[u8]) -> Result<Day, DayFault>
        ensures { result ≡ day_of bytes.now }
    {
        if !fits(b"YYYY-MM-DD", bytes) {
            return Err(DayFault::Shape);
        }
        let year = short_value_of(&bytes[..4]);
        let month = short_value_of(&bytes[5..7]) as u8;
        let day = short_value_of(&bytes[8..10]) as u8;
        if !is_calendar_date(year, month, day) {
            return Err(DayFault::NoSuchDay);
        }
        if year < FIRST_YEAR || year > LAST_YEAR {
            return Err(DayFault::OutOfProfile);
        }
        Ok(Day { year, month, day })
    }

    /// The day that these bytes write, where a question may be asked for it; it is `None` exactly where they write no such day.
    pub fn read_askable(bytes: &[u8]) -> Option<Day>
        ensures { result ≡ an_askable_day bytes.now }
    {
        let day = Day::read(bytes).ok()?;
        if day.is_askable() { Some(day) } else { None }
    }

    /// The day of a year, month and day of the month that make one.
    pub fn new(year: u16, month: u8, day: u8) -> Day
        requires { IsTrue (is_day (record { year = year; month = month; day = day })) }
        ensures { result ≡ record { year = year; month = month; day = day } }
    {
        Day { year, month, day }
    }

    /// The year, from 2000 to 2099.
    pub fn year(self) -> u16
        ensures value { result ≡ self.year }
        ensures form { is_day self ≡ true }
    {
        self.year
    }

    /// The month, from 1 to 12.
    pub fn month(self) -> u8
        ensures { result ≡ self.month }
    {
        self.month
    }

    /// The day of the month, from 1 to 31.
    pub fn day(self) -> u8
        ensures { result ≡ self.day }
    {
        self.day
    }

    /// The day as `YYYY-MM-DD`, which is read as the same day.
    #[tactic(auto, unfolding(crate::specs::Day::date_text))]
    pub fn to_text(self) -> [u8; 10]
        ensures value { result ≡ date_text self }
        ensures reads_back { day_of (date_text self) ≡ Ok self }
    {
        let Day { year, month, day } = self;
        [
            last_digit(year / 1000),
            last_digit(year / 100),
            last_digit(year / 10),
            last_digit(year),
            b'-',
            last_digit(month as u16 / 10),
            last_digit(month as u16),
            b'-',
            last_digit(day as u16 / 10),
            last_digit(day as u16),
        ]
    }

    /// The same day of the month six calendar months later, or the last day of that month where it has no such day.
    /// It is `None` exactly where that is past 2099-12-31.
    #[tactic(auto, unfolding(crate::specs::Day::six_months_after))]
    pub fn six_months(self) -> Option<Day>
        ensures { result ≡ six_months_after self }
    {
        Day::from_civil(six_months_later(self.to_civil()))
    }

    fn to_civil(self) -> civil::Date
        ensures value { date_from_civil result ≡ self }
        ensures year { IsBetween (pos FIRST_YEAR) (pos LAST_YEAR) result.year }
    {
        civil::date(self.year as i16, self.month as i8, self.day as i8)
    }

    /// The day of that date, unless it is past 2099-12-31.
    fn from_civil(date: civil::Date) -> Option<Day>
        requires { IsBetween (pos FIRST_YEAR) (pos (LAST_YEAR + 1)) date.year }
        ensures { result
            ≡ (if is_in_profile (date_from_civil date) then Some (date_from_civil date) else None) }
    {
        if date.year() > LAST_YEAR as i16 {
            return None;
        }
        Some(Day {
            year: date.year() as u16,
            month: date.month() as u8,
            day: date.day() as u8,
        })
    }

    /// Whether a question may be asked for the day: 2014-07-22 or later.
    pub fn is_askable(self) -> bool
        ensures { result ≡ is_askable self }
    {
        self >= Day::FIRST_ASKABLE
    }
}

/// The same day of the month six months later, or the last day of that month.
fn six_months_later(date: civil::Date) -> civil::Date
    requires { IsBetween (pos FIRST_YEAR) (pos LAST_YEAR) date.year }
    ensures value { date_from_civil result ≡ months_after 6 (date_from_civil date) }
    ensures year { IsBetween (pos FIRST_YEAR) (pos (LAST_YEAR + 1)) result.year }
{
    date.checked_add(6i64.months()).unwrap()
}

/// The last decimal digit of the number, as a byte.
fn last_digit(number: u16) -> u8
    ensures { result ≡ 48 + number % 10 }
{
    b'0' + (number % 10) as u8
}

/// Whether the Gregorian calendar has the date.
fn is_calendar_date(year: u16, month: u8, day: u8) -> bool
    requires year { year ≤ 9999 }
    requires month { month ≤ 99 }
    requires day { day ≤ 99 }
    ensures { result ≡ is_calendar_date (record { year = year; month = month; day = day }) }
{
    civil::Date::new(year as i16, month as i8, day as i8).is_ok()
}

impl fmt::Display for Day {
    ghost output = { λ day. Some (date_text day) };

    fn fmt<W: fmt::Write>(&self, f: &mut fmt::Formatter<W>) -> fmt::Result {
        let text = self.to_text();
        // That these bytes are a text is proved.
        f.write_str(unsafe { str::from_utf8_unchecked(&text) })
    }
}

impl fmt::Display for DayFault {
    ghost use Rattle.std.specs.Prelude.{Some};
    ghost use Rattle.desk_text.specs.Faults.{day_fault_words};

    ghost output = { λ fault. Some (day_fault_words fault) };

    fn fmt<W: fmt::Write>(&self, f: &mut fmt::Formatter<W>) -> fmt::Result {
        f.write_str(match self {
            DayFault::Shape => "not a day as YYYY-MM-DD",
            DayFault::NoSuchDay => "no such day",
            DayFault::OutOfProfile => "a day before 2000-01-01 or after 2099-12-31",
        })
    }
}

impl Error for DayFault {}
