//! Where the edits of a sheet act, and why they are refused.
#![tactic(auto)]

pub mod cut;
mod flags;
pub mod paste;
pub mod place;
