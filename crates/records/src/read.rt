//! Words read by the fields of their record.
ghost use Rattle.std.specs.Prelude.{◌≡◌, ◌≤◌, ◌+◌, [], length, ℤ, pos, Ok, Err, Option, MatchResult};
ghost use Rattle.lines.specs.Words.{words as words_in};
ghost use Rattle.records.specs.Fields.{is_name_byte, all_name_bytes, is_cpf, in_bounds, number_if, day_if, text_if, date_number, last_day, field_value};
ghost use Rattle.records.specs.Reads.{fault_at, refused_at, read_on, count_fits, read_record};
ghost use Rattle.records.specs.Tables.{fields_of};
ghost use Rattle.records.specs.Values.{values_of};

use crate::field::{Fault, Field, Form, Value};
use crate::record::Record;
use crate::tables::fields_of;
use crate::values::Values;
use calendar::date::days_in_month;
use lines::words::{Words, count_words};
use model::name::Name;
use numbers::value::{decimal_value, whole_value};
use refusal::Refusal;

fn is_name_byte(b: u8) -> bool
    ensures { result ≡ is_name_byte b }
{
    b.is_ascii_alphanumeric()
}

fn all_name_bytes(word: &[u8]) -> bool
    ensures { result ≡ all_name_bytes word.now }
{
    word.iter().all(|b| is_name_byte(*b))
}

fn is_cpf(word: &[u8]) -> bool
    ensures { result ≡ is_cpf word.now }
{
    matches!(word, b"CPF")
}

impl Field {
    fn in_bounds(&self, value: i64) -> bool
        ensures { result ≡ in_bounds self.now value }
    {
        (self.least..=self.greatest).contains(&value)
    }

    fn length_fits(&self, word: &[u8]) -> bool
        ensures { result ≡ in_bounds self.now (pos (length word.now)) }
    {
        i64::try_from(word.len()).is_ok_and(|len| self.in_bounds(len))
    }

    /// The field with no value above `last`.
    fn up_to(self, last: u32) -> Field
        ensures { (value : Option ℤ) → number_if result value ≡ day_if self last value }
    {
        Field {
            greatest: self.greatest.min(i64::from(last)),
            ..self
        }
    }

    fn number(&self, value: Option<i64>) -> Result<Value, Fault>
        ensures { result ≡ number_if self.now value }
    {
        let value = value.ok_or(Fault::Form)?;
        if self.in_bounds(value) {
            Ok(Value::Number(value))
        } else {
            Err(Fault::Range)
        }
    }
}

fn text(ok: bool, word: &[u8]) -> Result<Value, Fault>
    ensures { result ≡ text_if ok word.now }
{
    ok.then(|| Value::Text(Name::of(word))).ok_or(Fault::Form)
}

/// A year, month, day, hour, minute or second as a number; 0 for what is none.
pub fn date_number(value: Value) -> u32
    ensures { result ≡ date_number value }
{
    u32::try_from(value.number())
        .ok()
        .filter(|n| *n <= 9_999)
        .unwrap_or(0)
}

/// The days of the month that the last two values name.
fn last_day(before: &[Value]) -> u32
    ensures { result ≡ last_day before.now }
{
    match before {
        [.., year, month] => days_in_month(date_number(*year), date_number(*month)),
        _ => 0,
    }
}

/// The value of a word in its field, after the values of the words before it.
fn read_field(field: Field, word: &[u8], before: &[Value]) -> Result<Value, Fault>
    requires { field.places ≤ 6 }
    ensures { result ≡ field_value field word.now before.now }
{
    match field.form {
        Form::Cpf => text(is_cpf(word), word),
        Form::Name => text(field.length_fits(word) && all_name_bytes(word), word),
        Form::Note => text(field.length_fits(word), word),
        Form::Whole => field.number(whole_value(word)),
        Form::DayOfMonth => field.up_to(last_day(before)).number(whole_value(word)),
        Form::Decimal => field.number(decimal_value(word, field.places)),
    }
}

impl Fault {
    /// The refusal of a word.
    fn at(self, line: usize, word: usize) -> Refusal
        ensures { result ≡ fault_at line word self }
    {
        match self {
            Fault::Form => Refusal::WrongForm { line, word },
            Fault::Range => Refusal::OutOfRange { line, word },
        }
    }
}

/// The value of the word that comes after those whose values are given; the record's type is word 1.
fn read_word(line: usize, field: Field, word: &[u8], before: &[Value]) -> Result<Value, Refusal>
    requires { field.places ≤ 6 }
    ensures { result ≡ refused_at line (length before.now + 2) (field_value field word.now before.now) }
{
    read_field(field, word, before).map_err(|fault| fault.at(line, before.len() + 2))
}

/// The words by the fields of their record, from the left, as far as there are both.
fn read_fields(line: usize, kind: Record, words: &[u8]) -> Result<Values, Refusal>
    ensures { MatchResult result (λ v. read_on line (fields_of kind) (words_in words.now) [] ≡ Ok (values_of v)) (λ e. read_on line (fields_of kind) (words_in words.now) [] ≡ Err e) }
{
    let mut values = Values::none();
    for (field, word) in fields_of(kind).iter().zip(Words::new(words)) {
        let value = read_word(line, *field, word, values.as_slice())?;
        values.push(value);
    }
    Ok(values)
}

/// Whether a record has this many words after its type: one for each field, but H1 may lack its notes.
fn count_fits(kind: Record, n: usize) -> bool
    ensures { result ≡ count_fits kind n }
{
    let full = fields_of(kind).len();
    n == full || kind == Record::H1 && n == full - 1
}

/// The values of a record's words after its type. Refusals: 15, then 16 and 17 from the left.
pub fn read_record(line: usize, kind: Record, words: &[u8]) -> Result<Values, Refusal>
    ensures { MatchResult result (λ v. read_record line kind words.now ≡ Ok (values_of v)) (λ e. read_record line kind words.now ≡ Err e) }
{
    if !count_fits(kind, count_words(words)) {
        return Err(Refusal::WordCount { line });
    }
    read_fields(line, kind, words)
}
