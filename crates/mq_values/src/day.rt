//! Days of the calendar, by their ordinals (docs/LANGUAGE.md, "Dates").
ghost use Rattle.std.specs.Prelude.{◌≡◌, ◌+◌, ◌%◌, [], ◌∷◌, ◌++◌, IfSome, IsNone, IsTrue, Err, Ok, OnOk, OnErr, neg_ℤ};
ghost use Rattle.mq_values.specs.Calendar.{SpellsDay, SpellsDigits, date_of, day_of_month, is_ordinal, month_of, text_of_day, year_of};
ghost use Rattle.mq_values.specs.Bytes.{DIGIT_ZERO};
ghost use Rattle.mq_values.specs.Calendar as spec;

use crate::faults::ValueFault;
use crate::limits::{MAX_ORDINAL, MAX_YEAR, MONTHS};
use crate::memory::Memory;
use crate::number::Num;
use jiff::civil::Date;
use jiff_core::civil;
use std::marker::Model;

/// The days of the calendar's years from -9999 to 0, which the calendar has and dates of statements have not.
const EARLIER_DAYS: u32 = 3_652_425;

/// The greatest number of days of a month.
const MAX_DAYS_OF_MONTH: u32 = 31;

/// How many bytes the printed text of a day has.
const DATE_BYTES: usize = 10;

/// A day of the calendar by its ordinal: 1 is 0001-01-01 and `MAX_ORDINAL` is 9999-12-31
/// (docs/LANGUAGE.md, "Dates"). Contracts see it as that number.
#[derive(Clone, Copy, Debug, PartialEq, Eq, PartialOrd, Ord, Hash)]
pub struct Day {
    ordinal: u32,
}

impl Model for Day {
    ghost use Rattle.std.specs.Prelude.{ℕ, IsTrue};
    ghost use Rattle.mq_values.specs.Calendar.{is_ordinal};

    ghost Value = { ℕ };

    ghost view = { λ d. d.ordinal };

    ghost invariant = { λ d. IsTrue (is_ordinal d.ordinal) };

    ghost inverse = { λ n. record { ordinal = n } };
}

impl Day {
    /// The day with this ordinal.
    pub fn new(ordinal: u32) -> Day
        requires { IsTrue (is_ordinal ordinal) }
        ensures { result ≡ ordinal }
    {
        Day { ordinal }
    }

    /// Its ordinal, from 1 to `MAX_ORDINAL`.
    pub fn ordinal(self) -> u32
        ensures value { result ≡ self }
        ensures range { IsTrue (is_ordinal self) }
    {
        self.ordinal
    }

    /// The day that the text spells as it prints, `2024-02-29`; `None` exactly where it spells none
    /// (docs/LANGUAGE.md, "Dates").
    pub fn from_text(text: &str) -> Option<Day>
        ensures { SpellsDay text.now result }
    {
        spelled(text.as_bytes())
    }

    /// Appends its printed text to `out`. After `Memory` `out` is as before.
    pub(crate) fn print(self, out: &mut Vec<u8>) -> Result<(), Memory>
        ensures ok { OnOk result (out.new.items ≡ out.old.items ++ text_of_day self) }
        ensures err { OnErr result (out.new.items ≡ out.old.items) }
    {
        Ok(out.extend_from_slice(&self.text())?)
    }

    /// Its printed text: four digits, two and two, with `-` between.
    fn text(self) -> [u8; DATE_BYTES]
        ensures { result ≡ text_of_day self }
    {
        let (year, month, day) = self.date();
        [
            digit(year / 1000),
            digit(year / 100),
            digit(year / 10),
            digit(year),
            b'-',
            digit(month / 10),
            digit(month),
            b'-',
            digit(day / 10),
            digit(day),
        ]
    }

    /// Its year, its month and its day of the month.
    fn date(self) -> (u32, u32, u32)
        ensures { result ≡ (year_of self, month_of self, day_of_month self) }
    {
        let date = Date::from_plain(civil::Date::from_days_since_min(
            EARLIER_DAYS + self.ordinal - 1,
        ));
        (date.year() as u32, date.month() as u32, date.day() as u32)
    }
}

/// The last digit of a number, as a byte.
fn digit(n: u32) -> u8
    ensures { result ≡ DIGIT_ZERO + n % 10 }
{
    b'0' + (n % 10) as u8
}

/// The day that ten bytes spell, `2024-02-29`; `None` exactly where the bytes spell none.
fn spelled(bytes: &[u8]) -> Option<Day>
    ensures { SpellsDay bytes.now result }
{
    if bytes.len() != DATE_BYTES {
        return None;
    }
    if bytes[4] != b'-' || bytes[7] != b'-' {
        return None;
    }
    let year = four_digits(bytes[0], bytes[1], bytes[2], bytes[3])?;
    let month = two_digits(bytes[5], bytes[6])?;
    let day = two_digits(bytes[8], bytes[9])?;
    day_of(year, month, day)
}

/// The number that four digits spell; `None` where one of the bytes is no digit.
fn four_digits(a: u8, b: u8, c: u8, d: u8) -> Option<u32>
    ensures { SpellsDigits 4 (a ∷ b ∷ c ∷ d ∷ []) result }
{
    let front = two_digits(a, b)?;
    let back = two_digits(c, d)?;
    Some(100 * front + back)
}

/// The number that two digits spell; `None` where one of the bytes is no digit.
fn two_digits(tens: u8, ones: u8) -> Option<u32>
    ensures { SpellsDigits 2 (tens ∷ ones ∷ []) result }
{
    if tens.is_ascii_digit() && ones.is_ascii_digit() {
        return Some((tens - b'0') as u32 * 10 + (ones - b'0') as u32);
    }
    None
}

/// The day of this date; `None` exactly where the calendar has no such date or its year is not from 1 to
/// `MAX_YEAR` (docs/LANGUAGE.md, "Dates").
pub fn day_of(year: u32, month: u32, day: u32) -> Option<Day>
    ensures { result ≡ date_of year month day }
{
    if year < 1 || year > MAX_YEAR || month > MONTHS || day > MAX_DAYS_OF_MONTH {
        return None;
    }
    match Date::new(year as i16, month as i8, day as i8) {
        Ok(date) => Some(Day {
            ordinal: date.to_plain().days_since_min() + 1 - EARLIER_DAYS,
        }),
        Err(_) => None,
    }
}

/// The day `n` days on, for a number of scale 0. `DateRange` comes exactly where there is no such day
/// (docs/LANGUAGE.md, "Dates").
pub fn shift(d: Day, n: Num) -> Result<Day, ValueFault>
    requires { n.scale ≡ 0 }
    ensures { result ≡ spec.shifted d n.mant }
{
    match (d.ordinal as i128).checked_add(n.mant()) {
        Some(moved) => day_at(moved),
        None => Err(ValueFault::DateRange),
    }
}

/// The day `n` days back, for a number of scale 0. `DateRange` comes exactly where there is no such day
/// (docs/LANGUAGE.md, "Dates").
pub fn shift_back(d: Day, n: Num) -> Result<Day, ValueFault>
    requires { n.scale ≡ 0 }
    ensures { result ≡ spec.shifted d (neg_ℤ n.mant) }
{
    match (d.ordinal as i128).checked_sub(n.mant()) {
        Some(moved) => day_at(moved),
        None => Err(ValueFault::DateRange),
    }
}

/// The day of a whole number, where it is an ordinal in the range.
fn day_at(ordinal: i128) -> Result<Day, ValueFault>
    ensures { result ≡ spec.day_at ordinal }
{
    if ordinal < 1 || ordinal > MAX_ORDINAL as i128 {
        return Err(ValueFault::DateRange);
    }
    Ok(Day {
        ordinal: ordinal as u32,
    })
}

/// How many days `a` lies behind `b`, as an INT (docs/LANGUAGE.md, "Dates").
pub fn days_between(a: Day, b: Day) -> Num
    ensures { result ≡ spec.days_between a b }
{
    Num::new(a.ordinal as i128 - b.ordinal as i128, 0)
}
