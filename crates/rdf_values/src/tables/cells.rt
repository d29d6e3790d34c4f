// The values of one column.
ghost use Rattle.std.specs.Prelude.{◌≡◌, OnOk, OnErr};
ghost use Rattle.rdf_values.specs.{cut_to, IsKept, IsStored, pushed};

use crate::memory::Memory;
use crate::tables::numbers::Numbers;
use crate::tables::value::{ColType, Value};
use crate::tables::vects::Vects;
use std::alloc::Global;

/// The values of an int or a vec column, entry after entry.
#[derive(Drop)]
pub enum Cells {
    Ints(Numbers),
    Vects(Vects),
}

impl Cells {
    /// No values, of a type that a table holds.
    pub fn new(alloc: Global, kind: ColType) -> Cells
        requires { IsStored kind }
        ensures { IsKept kind 0 result }
    {
        match kind {
            ColType::Int => Cells::Ints(Numbers::new(alloc)),
            ColType::Vect => Cells::Vects(Vects::new(alloc)),
            ColType::Bool => unreachable!(),
        }
    }

    /// Appends a value of the column's type; one of another type is left out.
    pub fn push(&mut self, value: &Value) -> Result<(), Memory>
        ensures ok { OnOk result (self.new ≡ pushed self.old value.now) }
        ensures err { OnErr result (self.new ≡ self.old) }
    {
        match (self, value) {
            (Cells::Ints(numbers), Value::Int(n)) => numbers.push(*n),
            (Cells::Vects(vectors), Value::Vect(elements)) => vectors.push(elements.as_slice()),
            _ => Ok(()),
        }
    }

    /// Drops all but the first `n` values.
    pub fn truncate(&mut self, n: usize)
        ensures { self.new ≡ cut_to n self.old }
    {
        match self {
            Cells::Ints(numbers) => numbers.truncate(n),
            Cells::Vects(vectors) => vectors.truncate(n),
        }
    }
}
