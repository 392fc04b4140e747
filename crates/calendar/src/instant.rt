//! Instants of the calendar, and times as they are handed in.
ghost use Rattle.std.specs.Prelude.{◌<◌, ◌≤◌};

pub mod laws;
pub mod pairs;

/// The microseconds of a day.
pub const DAY_MICROS: u64 = 86_400_000_000;

/// An instant of the calendar: a day number (modified Julian day) from 1 January 1970 to 31 December 2099, and the
/// microseconds of that day. The later of two instants is the greater.
#[derive(Clone, Copy, PartialEq, Eq, PartialOrd, Ord, Debug)]
pub struct Instant {
    pub day: u32,
    pub micros: u64,
    ghost in_calendar: { (40587 ≤ day) × (day ≤ 88068) × (micros < 86400000000) },
}

/// A day number and microseconds of the day as they are handed in; they need not lie in the calendar.
#[derive(Clone, Copy, PartialEq, Eq, Debug)]
pub struct Timestamp {
    pub day: u32,
    pub micros: u64,
}
