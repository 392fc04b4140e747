//! The commands of a script: what a line asks for.
#![tactic(auto)]

mod arguments;
pub mod command;
mod kind;
pub mod law;
mod numeral;
mod read;
