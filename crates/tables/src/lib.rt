//! Time lines and prediction tables: one search and one window for all of them.
#![tactic(auto)]

pub mod lines;
pub mod row_table;
pub mod search;
pub mod windows;
