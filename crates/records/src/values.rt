//! The values of a record.
ghost use Rattle.std.specs.Prelude.{◌≡◌, ◌≤◌, length};

use crate::field::Value;

pub mod parts;

/// The most words that a record has after its type.
pub const MOST_FIELDS: usize = 22;

/// The values of a record's words, in their order.
// Kept: the kit's `ArrayVec` inside would take `Copy` from callers and ask a `Default` of `Value`, and the struct and its methods would stay.
#[derive(Clone, Copy)]
pub struct Values {
    pub items: [Value; MOST_FIELDS],
    pub len: usize,
    ghost full: { length items ≡ 22 },
    ghost inside: { len ≤ 22 },
}
