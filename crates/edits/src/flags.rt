//! Leap flags where rows are joined.
ghost use Rattle.std.specs.Prelude.{◌≡◌, ◌≤◌, length, take, drop};
ghost use Rattle.edits.specs.Places.{last_allows, allows_first};

use model::LeapFlag;
use tables::row_table::RowTable;

/// Whether the last of the first `n` rows, if any, allows the flag. (Inner: there are so many rows.)
pub fn last_allows(rows: RowTable<'_>, n: usize, flag: LeapFlag) -> bool
    requires { n ≤ length rows.rows.now }
    ensures { result ≡ last_allows (take n rows.entry.rows.now) flag }
{
    rows.rows()[..n]
        .last()
        .is_none_or(|row| row.flag.allows(flag))
}

/// Whether the flag allows that of row `n`, if there is one.
pub fn allows_first(flag: LeapFlag, rows: RowTable<'_>, n: usize) -> bool
    ensures { result ≡ allows_first flag (drop n rows.entry.rows.now) }
{
    rows.rows().get(n).is_none_or(|row| flag.allows(row.flag))
}
