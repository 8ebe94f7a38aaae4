//! A civil date with an hour.

ghost use Rattle.std.specs.Prelude.{◌≡◌, ◌↔◌, ◌≢◌, ◌<◌, ◌≤◌, ◌+◌, ℕ, length, pos, unsigned_abs, ◌≤ℤ◌, IsTrue, IsOk, IfOk, IsNone, IfSome, Some, IsAscii};
ghost use Rattle.jiff.specs.Words.{IsYmd};
ghost use Rattle.stamp_core.specs.Hours.{CivilHour, IsCivilHour, civil_hour, last_hour, number_of, IsEarlier, IsNextHour, IsSameDay, IsSameMonth};
ghost use Rattle.stamp_core.specs.Texts.{two_digits, text_of, IsPairAt};

use jiff::civil::{Date, date};
use std::marker::Model;
use thiserror::Error;

/// A year above 9999, a month that is not 1 to 12, a day that is not in that month of the Gregorian
/// calendar, or an hour above 23.
#[derive(Clone, Copy, PartialEq, Eq, Debug, Error)]
#[error("no such hour in the calendar")]
pub struct BadDate;

/// An hour of a day of the Gregorian calendar, from 0000-01-01-00 to 9999-12-31-23. Stamps are ordered
/// by time. The year 0 is a leap year.
#[derive(Clone, Copy, PartialEq, Eq, PartialOrd, Ord, Debug)]
pub struct Stamp {
    year: u16,
    month: u8,
    day: u8,
    hour: u8,
}

impl Model for Stamp {
    ghost use Rattle.stamp_core.specs.Hours.{CivilHour, IsCivilHour, civil_hour};

    ghost Value = { CivilHour };

    ghost view = { λ s. civil_hour s.year s.month s.day s.hour };

    ghost invariant = { λ s. IsCivilHour (civil_hour s.year s.month s.day s.hour) };

    ghost inverse = { λ c. record { year = c.year; month = c.month; day = c.day; hour = c.hour } };
}

impl Stamp {
    /// The stamp of this year, month, day and hour, all counted as a calendar prints them. `BadDate`
    /// exactly where the calendar has no such hour or the year is above 9999.
    pub fn new(year: u16, month: u8, day: u8, hour: u8) -> Result<Stamp, BadDate>
        ensures succeeds { IsOk result ↔ IsCivilHour (civil_hour year month day hour) }
        ensures value { IfOk result (λ s. s ≡ civil_hour year month day hour) }
    {
        if year > 9999 || month > 12 || day > 31 || hour > 23 {
            return Err(BadDate);
        }
        match Date::new(year as i16, month as i8, day as i8) {
            Ok(_) => Ok(Stamp {
                year,
                month,
                day,
                hour,
            }),
            Err(_) => Err(BadDate),
        }
    }

    /// The year, 0 to 9999.
    pub fn year(&self) -> u16
        ensures { result ≡ self.now.year }
    {
        self.year
    }

    /// The month, 1 to 12.
    pub fn month(&self) -> u8
        ensures { result ≡ self.now.month }
    {
        self.month
    }

    /// The day of the month, from 1.
    pub fn day(&self) -> u8
        ensures { result ≡ self.now.day }
    {
        self.day
    }

    /// The hour of the day, 0 to 23.
    pub fn hour(&self) -> u8
        ensures { result ≡ self.now.hour }
    {
        self.hour
    }

    /// The number whose decimal digits are year, month, day and hour. Numbers rise exactly as time does.
    pub fn number(&self) -> u64
        ensures value { result ≡ number_of self.now }
        ensures civil { IsCivilHour self.now }
    {
        u64::from(self.year) * 1_000_000
            + u64::from(self.month) * 10_000
            + u64::from(self.day) * 100
            + u64::from(self.hour)
    }

    /// The stamp that has this number. `None` exactly where no stamp has it.
    pub fn from_number(number: u64) -> Option<Stamp>
        ensures found { IfSome result (λ s. IsCivilHour s × (number_of s ≡ number)) }
        ensures exact { (c : CivilHour) → IsCivilHour c → number_of c ≡ number → result ≡ Some c }
        ensures none { IsNone result ↔ ((c : CivilHour) → IsCivilHour c → number_of c ≢ number) }
    {
        let year = number / 1_000_000;
        if year > 9999 {
            return None;
        }
        let month = (number / 10_000 % 100) as u8;
        let day = (number / 100 % 100) as u8;
        let hour = (number % 100) as u8;
        Stamp::new(year as u16, month, day, hour).ok()
    }

    /// Whether both hours are of one day.
    pub fn same_day(&self, other: &Stamp) -> bool
        ensures { IsTrue result ↔ IsSameDay self.now other.now }
    {
        self.same_month(other) && self.day == other.day
    }

    /// Whether both hours are of one month of one year.
    pub fn same_month(&self, other: &Stamp) -> bool
        ensures { IsTrue result ↔ IsSameMonth self.now other.now }
    {
        self.year == other.year && self.month == other.month
    }

    /// Whether this hour comes before the other in time, which is what `<` says, and what it says of
    /// their numbers.
    pub fn is_before(&self, other: &Stamp) -> bool
        ensures earlier { IsTrue result ↔ IsEarlier self.now other.now }
        ensures number { IsTrue result ↔ (number_of self.now < number_of other.now) }
    {
        // A look into each lets the proof see that both are hours of the calendar.
        let _ = &self.year;
        let _ = &other.year;
        self < other
    }

    /// The hour that follows this one, which is the least later stamp. `None` exactly at 9999-12-31-23.
    pub fn next_hour(&self) -> Option<Stamp>
        ensures none { IsNone result ↔ (self.now ≡ last_hour) }
        ensures next { IfSome result (IsNextHour self.now) }
    {
        if self.hour < 23 {
            return Some(Stamp {
                year: self.year,
                month: self.month,
                day: self.day,
                hour: self.hour + 1,
            });
        }
        match self.date().tomorrow() {
            Ok(next) => Some(midnight(next)),
            Err(_) => None,
        }
    }

    // The day of this hour, as the calendar's own date.
    fn date(&self) -> Date
        ensures ymd { IsYmd (pos self.now.year) (pos self.now.month) (pos self.now.day) result }
        ensures civil { IsCivilHour self.now }
    {
        date(self.year as i16, self.month as i8, self.day as i8)
    }

    /// The text of the stamp, `YYYY-MM-DD-HH` in ASCII digits. `parse` gives the stamp back.
    pub fn text(&self) -> [u8; 13]
        ensures text { result ≡ text_of self.now }
        ensures civil { IsCivilHour self.now }
        ensures ascii { IsAscii result }
    {
        let [y0, y1] = digits((self.year / 100) as u8);
        let [y2, y3] = digits((self.year % 100) as u8);
        let [m0, m1] = digits(self.month);
        let [d0, d1] = digits(self.day);
        let [h0, h1] = digits(self.hour);
        [y0, y1, y2, y3, b'-', m0, m1, b'-', d0, d1, b'-', h0, h1]
    }

    /// The stamp that a text spells. `None` exactly where the text is not `YYYY-MM-DD-HH` in ASCII
    /// digits, or the calendar has no such hour.
    pub fn parse(text: &str) -> Option<Stamp>
        ensures found { IfSome result (λ s. IsCivilHour s × (text_of s ≡ text.now)) }
        ensures exact { (c : CivilHour) → IsCivilHour c → text_of c ≡ text.now → result ≡ Some c }
        ensures none { IsNone result ↔ ((c : CivilHour) → IsCivilHour c → text_of c ≢ text.now) }
    {
        let bytes = text.as_bytes();
        if bytes.len() != 13 || bytes[4] != b'-' || bytes[7] != b'-' || bytes[10] != b'-' {
            return None;
        }
        let century = pair(bytes, 0)?;
        let year = pair(bytes, 2)?;
        let month = pair(bytes, 5)?;
        let day = pair(bytes, 8)?;
        let hour = pair(bytes, 11)?;
        Stamp::new(century as u16 * 100 + year as u16, month, day, hour).ok()
    }
}

// The first hour of a day that is not before the year 0.
fn midnight(day: Date) -> Stamp
    requires { pos 0 ≤ℤ day.year }
    ensures { result ≡ civil_hour (unsigned_abs day.year) day.month day.day 0 }
{
    Stamp {
        year: day.year() as u16,
        month: day.month() as u8,
        day: day.day() as u8,
        hour: 0,
    }
}

// The two decimal digits of a number below a hundred.
fn digits(number: u8) -> [u8; 2]
    requires { number < 100 }
    ensures { result ≡ two_digits number }
{
    [b'0' + number / 10, b'0' + number % 10]
}

// The number that the two characters at a place spell, if both are digits.
fn pair(bytes: &[u8], at: usize) -> Option<u8>
    requires { at + 1 < length bytes.now }
    ensures found { IfSome result (λ n. IsPairAt bytes.now at n) }
    ensures none { IsNone result → (n : ℕ) → ¬ (IsPairAt bytes.now at n) }
{
    let (tens, ones) = (bytes[at], bytes[at + 1]);
    if !tens.is_ascii_digit() || !ones.is_ascii_digit() {
        return None;
    }
    Some((tens - b'0') * 10 + (ones - b'0'))
}
