//! Rows to begin with, and how many there may be.
ghost use Rattle.std.specs.Prelude.{◌≡◌, pos, None};
ghost use Rattle.model.specs.declared.LeapFlag.TheVariants.{NoLeap};

use crate::{LeapFlag, Row, Vector};
use calendar::date::FIRST_DAY;
use calendar::instant::Instant;

/// The most rows that a sheet may have.
pub const MOST_ROWS: usize = 8_192;

impl Row {
    /// A row to fill memory with: the first instant of the calendar, at the origin.
    pub fn blank() -> Row
        ensures instant { (result.at.day ≡ 40587) × (result.at.micros ≡ 0) }
        ensures rest { (result.flag ≡ NoLeap) × (result.position.x ≡ pos 0) × (result.position.y ≡ pos 0) × (result.position.z ≡ pos 0) × (result.velocity ≡ None) }
    {
        Row {
            at: Instant {
                day: FIRST_DAY,
                micros: 0,
            },
            flag: LeapFlag::NoLeap,
            position: Vector { x: 0, y: 0, z: 0 },
            velocity: None,
        }
    }
}
