//! The prediction sheet: a header and rows in memory that the caller lends, edits, and what they took out.
#![tactic(auto)]

pub mod sheet;
