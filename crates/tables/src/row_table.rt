//! A table over rows that stand in memory.
ghost use Rattle.std.specs.Prelude.{◌≡◌, ◌≤◌, true, length};
ghost use Rattle.tables.specs.Lines.{ascends};

use model::Row;

pub mod reads;

/// A borrowed view of ascending rows.
#[derive(Clone, Copy)]
pub struct RowTable<'r> {
    rows: &'r [Row],
    ghost up: { ascends rows.now ≡ true },
    ghost short: { length rows.now ≤ 8192 },
}

impl<'r> RowTable<'r> {
    /// For our own crates: the caller shows that the rows ascend and are few.
    pub fn new(rows: &'r [Row]) -> RowTable<'r>
        requires { (ascends rows.now ≡ true) × (length rows.now ≤ 8192) }
        ensures { result.rows.now ≡ rows.now }
    {
        RowTable { rows }
    }

    /// The rows.
    pub fn rows(&self) -> &'r [Row]
        ensures { result.now ≡ self.now.rows.now }
    {
        self.rows
    }
}
