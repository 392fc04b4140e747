//! The words of a line as numbers, in and out.
//!
//! A decimal number of d places is held as a whole number of units of its last place.
#![tactic(auto)]

pub mod law;
pub mod parts;
pub mod value;
pub mod word;
pub mod write;
