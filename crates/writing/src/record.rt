//! The line of a record, by its table of fields.
ghost use Rattle.std.specs.Prelude.{◌≡◌, ◌*◌, length};
ghost use Rattle.writing.specs.Outputs.{Puts};
ghost use Rattle.writing.specs.Texts.{type_text, fields_text, record_text};

use crate::output::Output;
use records::field::{Field, Value};
use records::record::Record;
use records::tables::fields_of;

fn type_text(kind: Record) -> &'static [u8]
    ensures { result.now ≡ type_text kind }
{
    match kind {
        Record::H1 => b"H1",
        Record::H2 => b"H2",
        Record::H3 => b"H3",
        Record::H5 => b"H5",
        Record::H9 => b"H9",
        Record::Position => b"10",
        Record::Velocity => b"20",
        Record::Comment => b"00",
        Record::Trailer => b"99",
    }
}

impl Output<'_> {
    fn put_fields(&mut self, fields: &[Field], values: &[Value])
        ensures { Puts (301 * length fields.now) self.old (fields_text fields.now values.now) self.new }
    {
        for (field, value) in fields.iter().zip(values) {
            self.put_field(*field, *value);
        }
    }

    /// Adds the line of a record.
    pub fn put_record(&mut self, kind: Record, values: &[Value])
        ensures { Puts 7000 self.old (record_text kind values.now) self.new }
    {
        self.put(type_text(kind));
        self.put_fields(fields_of(kind), values);
        self.put(b"\n");
    }
}
