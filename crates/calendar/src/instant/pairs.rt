//! Instants made from a pair, joined into one number and split again.
ghost use Rattle.std.specs.Prelude.{◌≡◌, ◌/◌, ◌%◌};
ghost use Rattle.calendar.specs.Instants.{moment, instant_if};

use crate::date::{FIRST_DAY, LAST_DAY};
use crate::instant::{DAY_MICROS, Instant, Timestamp};
use refusal::Refusal;

impl Instant {
    /// The instant of a day number and microseconds of the day; 29 outside the calendar.
    pub fn new(day: u32, micros: u64) -> Result<Instant, Refusal>
        ensures { result ≡ instant_if day micros }
    {
        if !(FIRST_DAY..=LAST_DAY).contains(&day) || micros >= DAY_MICROS {
            return Err(Refusal::OutsideCalendar);
        }
        Ok(Instant { day, micros })
    }

    /// The microseconds from the start of day 0.
    // Kept: no From and no TryFrom: a bare number does not say that it counts microseconds from day 0.
    pub fn joined(self) -> u64
        ensures { result ≡ moment self }
    {
        u64::from(self.day) * DAY_MICROS + self.micros
    }

    /// The instant so many microseconds from the start of day 0; 29 outside the calendar.
    pub fn split(micros: u64) -> Result<Instant, Refusal>
        ensures { result ≡ instant_if (micros / 86400000000) (micros % 86400000000) }
    {
        Instant::new((micros / DAY_MICROS) as u32, micros % DAY_MICROS)
    }

    /// The second of the day, without its fraction.
    pub fn second(self) -> u32
        ensures { result ≡ self.micros / 1000000 }
    {
        (self.micros / 1_000_000) as u32
    }
}

/// The instant that was handed in; 29 outside the calendar.
impl TryFrom<Timestamp> for Instant {
    type Error = Refusal;

    ghost try_from_gives = { λ at r. r ≡ instant_if at.day at.micros };

    fn try_from(at: Timestamp) -> Result<Instant, Refusal> {
        Instant::new(at.day, at.micros)
    }
}
