//! The fields of each record, in one table.
ghost use Rattle.std.specs.Prelude.{◌≡◌};
ghost use Rattle.records.specs.Tables.{fields_of};

use crate::field::{Field, Form, Layout};
use crate::record::Record;

/// A field: its form, its places, its range, and how it is written.
macro_rules! field {
    ($form:ident, $places:literal, $least:literal..=$greatest:literal, $($layout:tt)+) => {
        Field {
            form: Form::$form,
            places: $places,
            least: $least,
            greatest: $greatest,
            layout: Layout::$($layout)+,
        }
    };
}

const CPF: Field = field!(Cpf, 0, 3..=3, Plain);

const VERSION: Field = field!(Whole, 0, 2..=2, Plain);

const SOURCE: Field = field!(Name, 0, 3..=3, Plain);

const YEAR: Field = field!(Whole, 0, 1_970..=2_099, Plain);

const MONTH: Field = field!(Whole, 0, 1..=12, TwoDigits);

const DAY: Field = field!(DayOfMonth, 0, 1..=31, TwoDigits);

const HOUR: Field = field!(Whole, 0, 0..=23, TwoDigits);

const MINUTE: Field = field!(Whole, 0, 0..=59, TwoDigits);

const SECOND: Field = field!(Whole, 0, 0..=59, TwoDigits);

const SEQUENCE: Field = field!(Whole, 0, 0..=999, Plain);

const SUB_DAILY: Field = field!(Whole, 0, 1..=99, Plain);

const TARGET: Field = field!(Name, 0, 1..=10, Plain);

const NOTES: Field = field!(Note, 0, 1..=10, Plain);

const ILRS_NUMBER: Field = field!(Whole, 0, 0..=99_999_999, Plain);

const SIC: Field = field!(Whole, 0, 0..=9_999, Plain);

const NORAD_NUMBER: Field = field!(Whole, 0, 0..=99_999_999, Plain);

const INTERVAL: Field = field!(Whole, 0, 0..=99_999, Plain);

const ONE_DIGIT: Field = field!(Whole, 0, 0..=9, Plain);

const TWO_DIGITS: Field = field!(Whole, 0, 0..=99, Plain);

const RUN_OFF: Field = field!(Whole, 0, -9_999..=99_999, Plain);

const OFFSET: Field = field!(Decimal, 4, 0..=999_999, Plain);

const DIRECTION: Field = field!(Whole, 0, 0..=0, Plain);

const DAY_NUMBER: Field = field!(Whole, 0, 40_587..=88_068, Right(5));

const SECOND_OF_DAY: Field = field!(Decimal, 6, 0..=86_399_999_999, Right(13));

const LEAP_FLAG: Field = field!(Whole, 0, -1..=1, Right(2));

const POSITION: Field = field!(
    Decimal,
    3,
    -999_999_999_999_999..=999_999_999_999_999,
    Right(17)
);

const VELOCITY: Field = field!(
    Decimal,
    6,
    -99_999_999_999_999_999..=99_999_999_999_999_999,
    Right(19)
);

const H1: [Field; 11] = [
    CPF, VERSION, SOURCE, YEAR, MONTH, DAY, HOUR, SEQUENCE, SUB_DAILY, TARGET, NOTES,
];

const H2: [Field; 22] = [
    ILRS_NUMBER,
    SIC,
    NORAD_NUMBER,
    YEAR,
    MONTH,
    DAY,
    HOUR,
    MINUTE,
    SECOND,
    YEAR,
    MONTH,
    DAY,
    HOUR,
    MINUTE,
    SECOND,
    INTERVAL,
    ONE_DIGIT,
    ONE_DIGIT,
    TWO_DIGITS,
    ONE_DIGIT,
    ONE_DIGIT,
    TWO_DIGITS,
];

const H3: [Field; 9] = [RUN_OFF; 9];

const H5: [Field; 1] = [OFFSET];

const POSITION_RECORD: [Field; 7] = [
    DIRECTION,
    DAY_NUMBER,
    SECOND_OF_DAY,
    LEAP_FLAG,
    POSITION,
    POSITION,
    POSITION,
];

const VELOCITY_RECORD: [Field; 4] = [DIRECTION, VELOCITY, VELOCITY, VELOCITY];

/// The fields after the record type. Of H1 the last may be absent.
pub fn fields_of(kind: Record) -> &'static [Field]
    ensures { result.now ≡ fields_of kind }
{
    match kind {
        Record::H1 => &H1,
        Record::H2 => &H2,
        Record::H3 => &H3,
        Record::H5 => &H5,
        Record::Position => &POSITION_RECORD,
        Record::Velocity => &VELOCITY_RECORD,
        Record::H9 | Record::Comment | Record::Trailer => &[],
    }
}
