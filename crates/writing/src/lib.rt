//! The canonical file of a header and rows: a function of these alone.
#![tactic(auto)]

mod fields;
pub mod file;
mod header;
mod output;
mod record;
mod rows;
mod text;
mod values;
