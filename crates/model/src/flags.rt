//! The rule for leap flags, and the flags as the numbers -1, 0 and 1.
ghost use Rattle.std.specs.Prelude.{◌≡◌};
ghost use Rattle.model.specs.Flags.{allows as allowsFlag, flag_number, flag_of};

use crate::LeapFlag;
use std::cmp::Ordering;

impl LeapFlag {
    /// Whether a later row may have the flag `next`: a flag, once set, stays.
    pub fn allows(self, next: LeapFlag) -> bool
        ensures { result ≡ allowsFlag self next }
    {
        self == LeapFlag::NoLeap || next == self
    }
}

/// The number by which a record writes the flag.
impl From<LeapFlag> for i64 {
    ghost from_gives = { λ flag r. r ≡ flag_number flag };

    fn from(flag: LeapFlag) -> i64 {
        match flag {
            LeapFlag::Removed => -1,
            LeapFlag::NoLeap => 0,
            LeapFlag::Added => 1,
        }
    }
}

/// The flag of a number, by its sign.
impl From<i64> for LeapFlag {
    ghost from_gives = { λ number r. r ≡ flag_of number };

    fn from(number: i64) -> LeapFlag {
        match number.cmp(&0) {
            Ordering::Less => LeapFlag::Removed,
            Ordering::Equal => LeapFlag::NoLeap,
            Ordering::Greater => LeapFlag::Added,
        }
    }
}
