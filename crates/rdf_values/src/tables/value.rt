// Values and their types.
use crate::list::IntList;

/// The type of a column or an expression.
#[derive(Clone, Copy, Debug, PartialEq, Eq)]
pub enum ColType {
    Int,
    Bool,
    Vect,
}

/// A number of 64 bits, a truth value, or a vector of such numbers.
#[derive(Debug, Drop)]
pub enum Value {
    Int(i64),
    Bool(bool),
    Vect(IntList),
}

/// A value that is no vector.
#[derive(Clone, Copy, Debug, PartialEq, Eq)]
pub enum Scalar {
    Int(i64),
    Bool(bool),
}

/// The number or the elements of the vector that a table holds at a place.
#[derive(Clone, Copy, Debug)]
pub enum Cell<'a> {
    Int(i64),
    Vect(&'a [i64]),
}
