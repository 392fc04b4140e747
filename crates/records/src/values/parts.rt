//! The values of a record, one by one.
ghost use Rattle.std.specs.Prelude.{◌≡◌, ◌<◌, [], ◌∷◌, ◌++◌, length};
ghost use Rattle.records.specs.Values.{values_of, value_at, number_at, name_at};

use crate::field::Value;
use crate::values::{MOST_FIELDS, Values};
use model::name::Name;

impl Values {
    /// No values.
    pub fn none() -> Values
        ensures { values_of result ≡ [] }
    {
        Values {
            items: [Value::Number(0); MOST_FIELDS],
            len: 0,
        }
    }

    /// One value more. (Inner: there is room for it.)
    pub(crate) fn push(&mut self, value: Value)
        requires { length (values_of self.old) < 22 }
        ensures { values_of self.new ≡ values_of self.old ++ (value ∷ []) }
    {
        self.items[self.len] = value;
        self.len += 1;
    }

    pub(crate) fn as_slice(&self) -> &[Value]
        ensures { result.now ≡ values_of self.now }
    {
        &self.items[..self.len]
    }

    /// The value at a place counted from 0; the number 0 where there is none.
    pub fn get(&self, i: usize) -> Value
        ensures { result ≡ value_at (values_of self.now) i }
    {
        self.as_slice().get(i).copied().unwrap_or(Value::Number(0))
    }

    /// The number at a place; 0 where there is none.
    pub fn number(&self, i: usize) -> i64
        ensures { result ≡ number_at (values_of self.now) i }
    {
        self.get(i).number()
    }

    /// The text at a place; empty where there is none.
    pub fn name(&self, i: usize) -> Name
        ensures { result ≡ name_at (values_of self.now) i }
    {
        self.get(i).name()
    }
}
