//! The lines of the rows.
ghost use Rattle.std.specs.Prelude.{◌*◌, length};
ghost use Rattle.writing.specs.Outputs.{Puts};
ghost use Rattle.writing.specs.Files.{velocity_line, row_text, rows_text};

use crate::output::Output;
use crate::text::Text;
use crate::values::{position_values, velocity_values};
use model::{Row, Vector};
use records::record::Record;

/// 20, of a velocity.
impl Text for Vector {
    ghost text = { velocity_line };

    ghost most = { λ _. 7000 };

    fn put(&self, out: &mut Output) {
        out.put_record(Record::Velocity, &velocity_values(*self));
    }
}

/// 10, and 20 where the row has a velocity.
impl Text for Row {
    ghost text = { row_text };

    ghost most = { λ _. 14000 };

    fn put(&self, out: &mut Output) {
        out.put_record(Record::Position, &position_values(self));
        self.velocity.put(out);
    }
}

impl Output<'_> {
    /// Adds the lines of the rows.
    pub fn put_rows(&mut self, rows: &[Row])
        ensures { Puts (14000 * length rows.now) self.old (rows_text rows.now) self.new }
    {
        for row in rows {
            row.put(self);
        }
    }
}
