ghost use Rattle.std.specs.Prelude.{◌≡◌, true};
ghost use Rattle.calendar.specs.Dates.{day_exists};

use calendar::instant::Instant;
use model::LeapFlag;

pub mod running;

/// A second of a day.
#[derive(Clone, Copy, PartialEq, Eq, Debug)]
pub struct DaySecond {
    pub day: u32,
    pub second: u32,
}

/// The cells of a sheet; start and end lie in the calendar.
#[derive(Clone, Copy, PartialEq, Eq, Debug)]
pub struct Cells {
    pub count: usize,
    /// The first instant, without its fraction of a second.
    pub start: DaySecond,
    /// The last instant, without its fraction of a second.
    pub end: DaySecond,
    /// The seconds between neighbouring rows where they are everywhere the same, a whole number from 1 to 99,999; else 0.
    // Kept: 0 for no interval, since H2 writes it so.
    pub interval: u32,
    ghost in_calendar: { (day_exists start.day ≡ true) × (day_exists end.day ≡ true) },
}

/// What is known of one row or more, read one after another, without keeping them.
#[derive(Clone, Copy)]
pub struct Summary {
    pub count: usize,
    pub first: Instant,
    pub last: Instant,
    pub flag: LeapFlag,
    pub interval: u32,
}
