//! What the values of a record say of the rows.
ghost use Rattle.std.specs.Prelude.{◌≡◌, ◌≤◌, true, unsigned_abs};
ghost use Rattle.calendar.specs.Instants.{in_calendar};
ghost use Rattle.records.specs.Values.{values_of, number_at};
ghost use Rattle.reading.specs.Builds.{second_at, span_of, row_of};

use calendar::date::Date;
use calendar::instant::Instant;
use cells::summary::DaySecond;
use model::{LeapFlag, Row, Vector};
use records::read::date_number;
use records::values::Values;

/// Start, end and interval as H2 states them; they have to be those of the rows.
#[derive(Clone, Copy, PartialEq, Eq, Debug)]
pub struct Span {
    pub start: DaySecond,
    pub end: DaySecond,
    pub interval: i64,
}

/// The second that six words from the place `i` on name: year, month, day, hour, minute, second.
fn second_at(values: &Values, i: usize) -> DaySecond
    requires { i ≤ 16 }
    ensures { result ≡ second_at (values_of values.now) i }
{
    let date = Date {
        year: date_number(values.get(i)),
        month: date_number(values.get(i + 1)),
        day: date_number(values.get(i + 2)),
    };
    let hour = date_number(values.get(i + 3));
    let minute = date_number(values.get(i + 4));
    let second = date_number(values.get(i + 5));
    DaySecond {
        day: date.day_number().unwrap_or(0),
        second: hour * 3600 + minute * 60 + second,
    }
}

/// H2.
impl From<&Values> for Span {
    ghost from_gives = { λ values r. r ≡ span_of (values_of values.now) };

    fn from(values: &Values) -> Span {
        Span {
            start: second_at(values, 3),
            end: second_at(values, 9),
            interval: values.number(15),
        }
    }
}

/// The row of a position record, without a velocity. (Inner: the day and the second are those of the calendar, as the fields of the
/// record ask.)
// Kept: no `TryFrom`, since the fields of the record rule its refusal out.
pub(crate) fn row_of(values: &Values) -> Row
    requires { in_calendar (unsigned_abs (number_at (values_of values.now) 1)) (unsigned_abs (number_at (values_of values.now) 2)) ≡ true }
    ensures { result ≡ row_of (values_of values.now) }
{
    let day = values.number(1).unsigned_abs();
    let micros = values.number(2).unsigned_abs();
    Row {
        at: Instant::new(day as u32, micros).unwrap(),
        flag: LeapFlag::from(values.number(3)),
        position: Vector {
            x: values.number(4),
            y: values.number(5),
            z: values.number(6),
        },
        velocity: None,
    }
}
