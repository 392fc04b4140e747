//! What the values of a record say.
ghost use Rattle.std.specs.Prelude.{◌≡◌};
ghost use Rattle.records.specs.Builds.{origin_of, satellite_of, accuracy_of, offset_of, velocity_of};
ghost use Rattle.records.specs.Values.{values_of};

use crate::values::Values;
use model::Vector;
use model::header::{Accuracy, Offset, Origin, Satellite};
use std::array;

/// H1.
impl From<&Values> for Origin {
    ghost from_gives = { λ values r. r ≡ origin_of (values_of values.now) };

    fn from(values: &Values) -> Origin {
        Origin {
            source: values.name(2),
            year: values.number(3),
            month: values.number(4),
            day: values.number(5),
            hour: values.number(6),
            sequence: values.number(7),
            sub_daily: values.number(8),
            target: values.name(9),
            notes: (values.len > 10).then(|| values.name(10)),
        }
    }
}

/// H2, but for what it states of the rows.
impl From<&Values> for Satellite {
    ghost from_gives = { λ values r. r ≡ satellite_of (values_of values.now) };

    fn from(values: &Values) -> Satellite {
        Satellite {
            ilrs_number: values.number(0),
            sic: values.number(1),
            norad_number: values.number(2),
            tiv_compatible: values.number(16),
            target_class: values.number(17),
            frame: values.number(18),
            rotation: values.number(19),
            centre_of_mass: values.number(20),
            location: values.number(21),
        }
    }
}

/// H3.
impl From<&Values> for Accuracy {
    ghost from_gives = { λ values r. r ≡ accuracy_of (values_of values.now) };

    fn from(values: &Values) -> Accuracy {
        Accuracy {
            values: array::from_fn(|i| values.number(i)),
        }
    }
}

/// H5.
impl From<&Values> for Offset {
    ghost from_gives = { λ values r. r ≡ offset_of (values_of values.now) };

    fn from(values: &Values) -> Offset {
        Offset {
            value: values.number(0),
        }
    }
}

/// The record 20.
impl From<&Values> for Vector {
    ghost from_gives = { λ values r. r ≡ velocity_of (values_of values.now) };

    fn from(values: &Values) -> Vector {
        Vector {
            x: values.number(1),
            y: values.number(2),
            z: values.number(3),
        }
    }
}
