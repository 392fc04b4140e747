//! Shifted tables: every instant of a prediction table moved by the same number of microseconds.
#![tactic(auto)]

mod moves;
pub mod shifted;
pub mod stacks;
