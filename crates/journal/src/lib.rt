//! The journal of a sheet: the edits that can be taken back.
#![tactic(auto)]

pub mod journal;
