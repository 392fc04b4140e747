//! What a field of a record takes, and the values that its words have.
ghost use Rattle.std.specs.Prelude.{◌≡◌};
ghost use Rattle.records.specs.Values.{number_in, name_in};

use model::name::Name;

/// The form of a field's words.
#[derive(Clone, Copy, PartialEq, Eq, Debug)]
pub enum Form {
    /// The word `CPF`.
    Cpf,
    /// Letters and digits; the bounds are those of the length.
    Name,
    /// Any bytes; the bounds are those of the length.
    Note,
    /// A whole number.
    Whole,
    /// A day of the year and month in the two words before.
    DayOfMonth,
    /// A decimal number.
    Decimal,
}

/// How a field is written.
#[derive(Clone, Copy, PartialEq, Eq, Debug)]
pub enum Layout {
    /// After one space, with no leading zeros.
    Plain,
    /// After one space, with two digits.
    TwoDigits,
    /// After one space, at the right of so many bytes.
    Right(u8),
}

/// One field of a record.
#[derive(Clone, Copy, PartialEq, Eq, Debug)]
pub struct Field {
    pub form: Form,
    /// The digits after the point, at most 6.
    // Kept: a ghost field is refused: no static holds a struct with one (unsupported-static), and `fields_of` lends no const of it (borrow-e0515).
    pub places: u8,
    pub least: i64,
    pub greatest: i64,
    pub layout: Layout,
}

/// The value of a word.
#[derive(Clone, Copy, PartialEq, Eq, Debug)]
pub enum Value {
    /// A number, in units of its last place.
    Number(i64),
    Text(Name),
}

impl Value {
    /// The number; 0 of a text.
    // Kept: 0 of a text, and no text of a number: the fields of a record decide what stands where, and an Option would be unwrapped at each use.
    pub fn number(self) -> i64
        ensures { result ≡ number_in self }
    {
        match self {
            Value::Number(v) => v,
            Value::Text(_) => 0,
        }
    }

    /// The text; empty of a number.
    pub fn name(self) -> Name
        ensures { result ≡ name_in self }
    {
        match self {
            Value::Number(_) => Name::of(&[]),
            Value::Text(name) => name,
        }
    }
}

/// What is wrong with a word.
#[derive(Clone, Copy, PartialEq, Eq, Debug)]
pub enum Fault {
    /// It is not of its field's form.
    Form,
    /// Its value is outside its field's range.
    Range,
}
