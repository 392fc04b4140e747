//! What a prediction sheet holds: rows, and the header.
#![tactic(auto)]

pub mod flags;
pub mod header;
pub mod name;
pub mod rows;

use calendar::instant::Instant;

/// A leap second announced for the day: removed, none, or added.
#[derive(Clone, Copy, PartialEq, Eq, Debug)]
pub enum LeapFlag {
    Removed,
    NoLeap,
    Added,
}

/// Three coordinates, in whole units of the last decimal place of their record: millimetres for a position,
/// micrometres per second for a velocity.
#[derive(Clone, Copy, PartialEq, Eq, Debug)]
pub struct Vector {
    pub x: i64,
    pub y: i64,
    pub z: i64,
}

/// One row of a prediction: a position record with its velocity record, if any.
#[derive(Clone, Copy, PartialEq, Eq, Debug)]
pub struct Row {
    pub at: Instant,
    pub flag: LeapFlag,
    pub position: Vector,
    pub velocity: Option<Vector>,
}
