//! Reading: a text is checked line by line from its first byte to its last, and only then are its rows stored.
#![tactic(auto)]

pub mod build;
pub mod content;
pub mod part;
pub mod scan;
pub mod stage;
pub mod store;
pub mod text;
