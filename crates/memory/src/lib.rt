//! Memory that a caller lends: one block move for any copyable element type, and the rows of a text stored in it.
#![tactic(auto)]

pub mod blocks;
pub mod lent;
