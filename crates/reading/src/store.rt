//! The rows of a text that was checked, stored.
ghost use Rattle.std.specs.Prelude.{◌≡◌, ◌≤◌, length, take};
ghost use Rattle.reading.specs.Stores.{completed, with_part, rows_in, first_flag_of};

use crate::part::RowPart;
use lines::reader::Lines;
use model::{LeapFlag, Row, Vector};

/// Gives the last row its velocity.
fn complete(rows: &mut [Row], velocity: Vector)
    ensures { rows.new ≡ completed rows.old velocity }
{
    if let Some(last) = rows.last_mut() {
        last.velocity = Some(velocity);
    }
}

/// Adds a part to the first `n` rows, and answers how many there are then. (Inner: there is room for them.)
// Kept: a count beside memory that the caller lends.
fn store_part(rows: &mut [Row], n: usize, part: RowPart) -> usize
    requires held { n ≤ length rows.old }
    requires room { length (with_part (take n rows.old) (Some part)) ≤ length rows.old }
    ensures rows { take result rows.new ≡ with_part (take n rows.old) (Some part) }
    ensures held { result ≤ length rows.new }
{
    match part {
        RowPart::Position(row) => {
            rows[n] = row;
            n + 1
        }
        RowPart::Velocity(velocity) => {
            complete(&mut rows[..n], velocity);
            n
        }
    }
}

/// Stores the rows of a text at the start of the memory, and answers how many they are. (Inner: there is room for them.)
// Kept: a count beside memory that the caller lends.
pub fn store_rows(text: &[u8], rows: &mut [Row]) -> usize
    requires { length (rows_in text.now) ≤ length rows.old }
    ensures rows { take result rows.new ≡ rows_in text.now }
    ensures count { result ≡ length (rows_in text.now) }
{
    let mut lines = Lines::new(text);
    let mut n = 0;
    while let Some(line) = lines.next_line() {
        if let Some(part) = RowPart::of(lines.number(), line) {
            n = store_part(rows, n, part);
        }
    }
    n
}

/// The leap flag of the first row of a text, without storing a row; None where the text has no row.
pub fn first_flag(text: &[u8]) -> Option<LeapFlag>
    ensures { result ≡ first_flag_of (rows_in text.now) }
{
    let mut lines = Lines::new(text);
    while let Some(line) = lines.next_line() {
        if let Some(RowPart::Position(row)) = RowPart::of(lines.number(), line) {
            return Some(row.flag);
        }
    }
    None
}
