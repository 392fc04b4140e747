//! The values of each record.
ghost use Rattle.std.specs.Prelude.{◌≡◌, true, take, MatchOption};
ghost use Rattle.calendar.specs.Dates.{day_exists};
ghost use Rattle.writing.specs.Values.{whole as wholeValue, origin_values, time_values, satellite_values, accuracy_values, offset_values, position_values, velocity_values};

use calendar::date::Date;
use cells::summary::{Cells, DaySecond};
use model::header::{Accuracy, Offset, Origin, Satellite};
use model::name::Name;
use model::{Row, Vector};
use records::field::Value;

// Kept: functions here and below, since neither type of a From would be of this crate.
fn whole(n: u32) -> Value
    ensures { result ≡ wholeValue n }
{
    Value::Number(i64::from(n))
}

/// What H1 holds. (Inner: the last, the notes, is no part of the line where there are none.)
pub fn origin_values(origin: &Origin) -> [Value; 11]
    ensures { MatchOption origin.now.notes (take 10 result ≡ origin_values origin.now) (λ _. result ≡ origin_values origin.now) }
{
    [
        Value::Text(Name::of(b"CPF")),
        whole(2),
        Value::Text(origin.source),
        Value::Number(origin.year),
        Value::Number(origin.month),
        Value::Number(origin.day),
        Value::Number(origin.hour),
        Value::Number(origin.sequence),
        Value::Number(origin.sub_daily),
        Value::Text(origin.target),
        origin.notes.map_or(whole(0), Value::Text),
    ]
}

/// Year, month, day, hour, minute and second.
fn time_values(time: DaySecond) -> [Value; 6]
    requires { day_exists time.day ≡ true }
    ensures { result ≡ time_values time }
{
    let date = Date::of_day(time.day).unwrap();
    [
        whole(date.year),
        whole(date.month),
        whole(date.day),
        whole(time.second / 3600),
        whole(time.second / 60 % 60),
        whole(time.second % 60),
    ]
}

/// What H2 holds.
pub fn satellite_values(satellite: &Satellite, cells: &Cells) -> [Value; 22]
    ensures { result ≡ satellite_values satellite.now cells.now }
{
    let start = time_values(cells.start);
    let end = time_values(cells.end);
    [
        Value::Number(satellite.ilrs_number),
        Value::Number(satellite.sic),
        Value::Number(satellite.norad_number),
        start[0],
        start[1],
        start[2],
        start[3],
        start[4],
        start[5],
        end[0],
        end[1],
        end[2],
        end[3],
        end[4],
        end[5],
        whole(cells.interval),
        Value::Number(satellite.tiv_compatible),
        Value::Number(satellite.target_class),
        Value::Number(satellite.frame),
        Value::Number(satellite.rotation),
        Value::Number(satellite.centre_of_mass),
        Value::Number(satellite.location),
    ]
}

/// What H3 holds.
pub fn accuracy_values(accuracy: Accuracy) -> [Value; 9]
    ensures { result ≡ accuracy_values accuracy }
{
    accuracy.values.map(Value::Number)
}

/// What H5 holds.
pub fn offset_values(offset: Offset) -> [Value; 1]
    ensures { result ≡ offset_values offset }
{
    [Value::Number(offset.value)]
}

/// What a position record holds.
pub fn position_values(row: &Row) -> [Value; 7]
    ensures { result ≡ position_values row.now }
{
    [
        whole(0),
        whole(row.at.day),
        Value::Number(row.at.micros as i64),
        Value::Number(i64::from(row.flag)),
        Value::Number(row.position.x),
        Value::Number(row.position.y),
        Value::Number(row.position.z),
    ]
}

/// What a velocity record holds.
pub fn velocity_values(velocity: Vector) -> [Value; 4]
    ensures { result ≡ velocity_values velocity }
{
    [
        whole(0),
        Value::Number(velocity.x),
        Value::Number(velocity.y),
        Value::Number(velocity.z),
    ]
}
