// What an action reads of one column over a block.
ghost use Rattle.std.specs.Prelude.{◌≡◌};
ghost use Rattle.rdf_values.specs.{numbers};
ghost use Rattle.actions.specs.{HasPlace, lane_value, part_value};

use crate::items::ColumnValue;
use rdf_values::{Span, Vects};
use std::slice;

/// The values of a column at the places of a block, each at its own place.
#[derive(Clone, Copy)]
pub enum FedLane<'a> {
    Int(&'a [i64]),
    /// 0 for false, and 1 for true.
    Bool(&'a [i64]),
    /// The elements of all vectors, and where those of each place stand among them.
    Vects {
        elements: &'a [i64],
        spans: &'a [Span],
    },
    /// The vectors of a table's column, and the entry at which the block's places begin.
    Column {
        vectors: &'a Vects,
        first: u32,
    },
}

impl<'a> FedLane<'a> {
    /// The value of a place.
    pub fn part(&self, place: u32) -> ColumnValue<'a>
        requires { HasPlace self.now place }
        ensures { part_value result ≡ lane_value self.now place }
    {
        let at = place as usize;
        match self {
            FedLane::Int(numbers) => ColumnValue::Int(numbers[at]),
            FedLane::Bool(marks) => ColumnValue::Bool(marks[at] != 0),
            FedLane::Vects { elements, spans } => {
                let span = spans[at];
                ColumnValue::Vect(&elements[span.lo as usize..span.hi as usize])
            }
            FedLane::Column { vectors, first } => ColumnValue::Vect(vectors.at(
                *first as usize + at,
            )),
        }
    }

    /// The numbers of the value of a place: one, or the elements of the vector, or none for a truth value.
    pub fn numbers(&self, place: u32) -> &'a [i64]
        requires { HasPlace self.now place }
        ensures { result.now ≡ numbers (lane_value self.now place) }
    {
        let at = place as usize;
        match self {
            FedLane::Int(numbers) => slice::from_ref(&numbers[at]),
            FedLane::Bool(_) => &[],
            FedLane::Vects { elements, spans } => {
                let span = spans[at];
                &elements[span.lo as usize..span.hi as usize]
            }
            FedLane::Column { vectors, first } => vectors.at(*first as usize + at),
        }
    }
}
