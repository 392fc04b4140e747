//! A closed sheet: the header and the rows that a sheet had, for reading.
#![tactic(auto)]

pub mod closed;
