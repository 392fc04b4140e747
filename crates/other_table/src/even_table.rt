ghost use Rattle.std.specs.Prelude.{◌+◌, ◌*◌, ◌<◌, ◌≤◌};
ghost use Rattle.calendar.specs.Instants.{moment};

use calendar::instant::Instant;

pub mod reads;

/// Rows at even steps from a first instant on.
#[derive(Clone, Copy)]
pub struct EvenTable {
    first: Instant,
    seconds: u16,
    count: usize,
    ghost rising: { 0 < seconds },
    ghost few: { count ≤ 8192 },
    ghost inside: { moment first + count * (seconds * 1000000) < 7609161600000000 },
}
