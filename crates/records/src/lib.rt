//! The records of a file: their types, their fields in one table each, the words read by those fields, and what these say.
#![tactic(auto)]

pub mod contents;
pub mod field;
pub mod read;
pub mod record;
pub mod tables;
pub mod values;
