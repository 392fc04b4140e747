//! The lines of the header.
ghost use Rattle.writing.specs.Outputs.{Puts};
ghost use Rattle.writing.specs.Files.{origin_line, accuracy_line, offset_line, header_text};

use crate::output::Output;
use crate::text::Text;
use crate::values::{accuracy_values, offset_values, origin_values, satellite_values};
use cells::summary::Cells;
use model::header::{Accuracy, Header, Offset, Origin};
use records::record::Record;

/// H1.
impl Text for Origin {
    ghost text = { origin_line };

    ghost most = { λ _. 7000 };

    fn put(&self, out: &mut Output) {
        let values = origin_values(self);
        match self.notes {
            Some(_) => out.put_record(Record::H1, &values),
            None => out.put_record(Record::H1, &values[..10]),
        }
    }
}

/// H3.
impl Text for Accuracy {
    ghost text = { accuracy_line };

    ghost most = { λ _. 7000 };

    fn put(&self, out: &mut Output) {
        out.put_record(Record::H3, &accuracy_values(*self));
    }
}

/// H5.
impl Text for Offset {
    ghost text = { offset_line };

    ghost most = { λ _. 7000 };

    fn put(&self, out: &mut Output) {
        out.put_record(Record::H5, &offset_values(*self));
    }
}

impl Output<'_> {
    /// Adds the header's lines.
    pub fn put_header(&mut self, header: &Header, cells: &Cells)
        ensures { Puts 35000 self.old (header_text header.now cells.now) self.new }
    {
        header.origin.put(self);
        self.put_record(Record::H2, &satellite_values(&header.satellite, cells));
        header.accuracy.put(self);
        header.offset.put(self);
        self.put_record(Record::H9, &[]);
    }
}
