//! The four cells that follow from the rows and from nothing else: row count, start, end and interval.
#![tactic(auto)]

pub mod summary;
