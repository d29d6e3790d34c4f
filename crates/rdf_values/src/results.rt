// What an entry feeds to an action, or why it gives nothing.
use crate::tables::value::Scalar;

/// One item: a unit, a number, a value, or the coordinates of a point and its weight.
#[derive(Clone, Copy, Debug, PartialEq, Eq)]
pub enum Item {
    Unit,
    Number(i64),
    Single(Scalar),
    Point { x: i64, weight: i64 },
    Point2 { x: i64, y: i64, weight: i64 },
}

/// Why an entry has no value, printed as F1 to F8.
#[derive(Clone, Copy, Debug, PartialEq, Eq)]
pub enum EntryFault {
    /// A number leaves 64 bits.
    Overflow,
    ZeroDivisor,
    /// A place that the vector doesn't have.
    Index,
    /// The least or greatest element of an empty vector.
    EmptyVector,
    /// Two vectors of different lengths.
    Lengths,
    /// A vector of another length than there are tags.
    VaryCount,
    /// A weight whose absolute value is above 2147483647.
    Weight,
    /// A function that the caller handed in has no answer.
    Function,
}

/// A fault at an entry, in a pass of the loop by its number.
#[derive(Clone, Copy, Debug, PartialEq, Eq)]
pub struct Fault {
    pub entry: u32,
    pub pass: u32,
    pub kind: EntryFault,
}
