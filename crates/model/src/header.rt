//! The header of a sheet: what its header records hold, apart from what follows from the rows.
use crate::name::Name;

/// What H1 holds: who predicted what, and when.
#[derive(Clone, Copy, PartialEq, Eq, Debug)]
pub struct Origin {
    pub source: Name,
    pub year: i64,
    pub month: i64,
    pub day: i64,
    pub hour: i64,
    pub sequence: i64,
    pub sub_daily: i64,
    pub target: Name,
    pub notes: Option<Name>,
}

/// What H2 holds apart from start, end and interval.
#[derive(Clone, Copy, PartialEq, Eq, Debug)]
pub struct Satellite {
    pub ilrs_number: i64,
    pub sic: i64,
    pub norad_number: i64,
    pub tiv_compatible: i64,
    pub target_class: i64,
    pub frame: i64,
    pub rotation: i64,
    pub centre_of_mass: i64,
    pub location: i64,
}

/// What H3 holds: the expected accuracy, nine whole numbers.
#[derive(Clone, Copy, PartialEq, Eq, Debug)]
pub struct Accuracy {
    pub values: [i64; 9],
}

/// What H5 holds: the offset from the centre of mass, in tenths of a millimetre.
#[derive(Clone, Copy, PartialEq, Eq, Debug)]
pub struct Offset {
    pub value: i64,
}

/// The header of a sheet.
#[derive(Clone, Copy, PartialEq, Eq, Debug)]
pub struct Header {
    pub origin: Origin,
    pub satellite: Satellite,
    pub accuracy: Option<Accuracy>,
    pub offset: Option<Offset>,
}
