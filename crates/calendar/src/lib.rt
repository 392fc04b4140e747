//! The calendar: instants as a day number and microseconds of the day, and dates.
#![tactic(auto)]

pub mod date;
pub mod instant;
