//! Lines and words: a text is read line by line off its own bytes, and a line word by word, without a copy.
#![tactic(auto)]

pub mod reader;
mod scan;
pub mod words;
