//! The file format as a relation between a text and its header and rows, and openings in its words.
#![tactic(auto)]

pub mod law;
pub mod open;
