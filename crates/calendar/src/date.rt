//! Dates of the Gregorian calendar and their day numbers (modified Julian days).
ghost use Rattle.std.specs.Prelude.{◌≡◌, ℕ, ◌+◌, ◌<◌, ◌≤◌};
ghost use Rattle.calendar.specs.Dates.{StartsBy, leap, days_in_year, days_in_month, days_before_year, days_before_month, date_exists, day_if, date_if};

pub mod laws;

/// The day number of 1 January 1970.
pub const FIRST_DAY: u32 = 40_587;

/// The day number of 31 December 2099.
pub const LAST_DAY: u32 = 88_068;

const FIRST_YEAR: u32 = 1970;

const LAST_YEAR: u32 = 2099;

/// A date of the Gregorian calendar.
#[derive(Clone, Copy, PartialEq, Eq, Debug)]
pub struct Date {
    pub year: u32,
    pub month: u32,
    pub day: u32,
}

/// Whether a year has 366 days.
#[tactic(auto, using(std::proofs::lemmas::Bool::Decides::nat_tests), unfolding(crate::specs::Dates::leap))]
pub fn is_leap(year: u32) -> bool
    ensures { result ≡ leap year }
{
    year % 4 == 0 && (year % 100 != 0 || year % 400 == 0)
}

/// The days of a month from 1 to 12; 0 for any other number.
// Kept: 0 days for no month: a comparison of a day with it then fails of itself, and the sums take months from 1 to 12 alone.
#[tactic(auto, using(std::proofs::lemmas::Bool::Decides::nat_tests), unfolding(crate::specs::Dates::days_in_month, crate::specs::Dates::short))]
pub fn days_in_month(year: u32, month: u32) -> u32
    ensures { result ≡ days_in_month year month }
{
    match month {
        1 | 3 | 5 | 7 | 8 | 10 | 12 => 31,
        4 | 6 | 9 | 11 => 30,
        2 if is_leap(year) => 29,
        2 => 28,
        _ => 0,
    }
}

#[tactic(auto, using(std::proofs::lemmas::Bool::Decides::nat_tests), unfolding(crate::specs::Dates::days_in_year))]
fn days_in_year(year: u32) -> u32
    ensures { result ≡ days_in_year year }
{
    if is_leap(year) { 366 } else { 365 }
}

/// The days from the start of the calendar to the start of one of its years.
fn days_before_year(year: u32) -> u32
    requires { (1970 ≤ year) × (year ≤ 2099) }
    ensures { result ≡ days_before_year year }
{
    (FIRST_YEAR..year).map(days_in_year).sum()
}

/// The days from the start of a year to the start of one of its months.
fn days_before_month(year: u32, month: u32) -> u32
    requires { (1 ≤ month) × (month ≤ 12) }
    ensures { result ≡ days_before_month year month }
{
    (1..month).map(|earlier| days_in_month(year, earlier)).sum()
}

/// Of the periods from `first` to `last`, one after another, the one that so many days reach, and the days of it that have
/// passed; the last one where the days are more.
fn period_at<F: Fn(u32) -> u32>(first: u32, last: u32, days: u32, length: F) -> (u32, u32)
    requires ordered { first ≤ last }
    requires callable { F.IsAlwaysCallable length }
    ensures within { (first ≤ result.0) × (result.0 ≤ last) }
    ensures start { (start : ℕ → ℕ) → StartsBy (F.post length) first last start → start result.0 + result.1 ≡ start first + days }
    ensures end { result.0 < last → (long : ℕ) × F.post length result.0 long × (result.1 < long) }
{
    let mut left = days;
    for period in first..last {
        let long = length(period);
        if left < long {
            return (period, left);
        }
        left -= long;
    }
    (last, left)
}

impl Date {
    /// Whether there is such a date from 1970 to 2099.
    pub fn exists(&self) -> bool
        ensures { result ≡ date_exists self.now }
    {
        (FIRST_YEAR..=LAST_YEAR).contains(&self.year)
            && (1..=12).contains(&self.month)
            && (1..=days_in_month(self.year, self.month)).contains(&self.day)
    }

    /// The day number; None where there is no such date.
    // Kept: no TryFrom here and below: a bare number does not say that it is a day.
    pub fn day_number(&self) -> Option<u32>
        ensures { result ≡ day_if self.now }
    {
        if !self.exists() {
            return None;
        }
        let before = days_before_year(self.year) + days_before_month(self.year, self.month);
        Some(FIRST_DAY + before + (self.day - 1))
    }

    /// The date of a day number; None outside the calendar.
    pub fn of_day(day: u32) -> Option<Date>
        ensures { result ≡ date_if day }
    {
        if !(FIRST_DAY..=LAST_DAY).contains(&day) {
            return None;
        }
        let (year, left) = period_at(FIRST_YEAR, LAST_YEAR, day - FIRST_DAY, days_in_year);
        let (month, left) = period_at(1, 12, left, |month| days_in_month(year, month));
        Some(Date {
            year,
            month,
            day: left + 1,
        })
    }
}
