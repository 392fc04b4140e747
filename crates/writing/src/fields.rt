//! The text of a value in its field.
ghost use Rattle.std.specs.Prelude.{◌≡◌, ◌≤◌, ◌∷◌, length};
ghost use Rattle.writing.specs.Outputs.{Puts};
ghost use Rattle.writing.specs.Texts.{number_text, field_text};

use crate::output::Output;
use numbers::write::{decimal_len, put_decimal, put_two_digits};
use records::field::{Field, Form, Layout, Value};

// A number takes at most 22 bytes besides its places.
// Kept: measured apart, since a number stands at the right of its field, whose length is wanted first.
fn number_len(layout: Layout, places: u8, value: i64) -> usize
    ensures is { result ≡ length (number_text layout places value) }
    ensures small { result ≤ 300 }
{
    match layout {
        Layout::Plain => decimal_len(value, places),
        Layout::TwoDigits => 2,
        Layout::Right(width) => decimal_len(value, places).max(usize::from(width)),
    }
}

impl Output<'_> {
    // A number stands at the right of its field, so a field that is one byte longer has the space before it.
    fn put_number(&mut self, layout: Layout, places: u8, value: i64)
        ensures { Puts 301 self.old (32 ∷ number_text layout places value) self.new }
    {
        let len = number_len(layout, places, value) + 1;
        if let Some(at) = self.advance(len) {
            let field = &mut self.bytes[at..at + len];
            match layout {
                Layout::TwoDigits => {
                    field[0] = b' ';
                    put_two_digits(&mut field[1..], value);
                }
                _ => put_decimal(field, value, places),
            }
        }
    }

    /// Adds a space, and the text of a value in its field.
    pub fn put_field(&mut self, field: Field, value: Value)
        ensures { Puts 301 self.old (32 ∷ field_text field value) self.new }
    {
        match field.form {
            Form::Cpf => self.put(b" CPF"),
            Form::Name | Form::Note => {
                self.put(b" ");
                self.put(value.name().text());
            }
            Form::Whole | Form::DayOfMonth | Form::Decimal => {
                self.put_number(field.layout, field.places, value.number())
            }
        }
    }
}
