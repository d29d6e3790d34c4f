// The values of a lane's places.
ghost use Rattle.std.specs.Prelude.{◌≡◌, ◌<◌, ℕ, length, OnOk, OnErr};
ghost use Rattle.rdf_model.specs.{Gives};
ghost use Rattle.expr_eval.specs.{input_outcome};
ghost use Rattle.expr_lanes.specs.{at_place};
ghost use Rattle.block_cache.specs.{AreKept, IsNumberOf, IsScalar, value_for};

use crate::vectors::Vectors;
use expr_eval::ColumnInput;
use expr_eval::number::mark;
use rdf_values::{ColType, Memory, Value};

/// At each place a number, which is that of a vector in a lane of vectors.
#[derive(Drop)]
pub(crate) struct Values {
    pub(crate) numbers: Vec<i64>,
    pub(crate) vectors: Vectors,
}

impl Values {
    /// Writes the value of a place.
    pub(crate) fn write(&mut self, place: u32, value: &Value) -> Result<(), Memory>
        requires { place < length self.old.numbers.items }
        ensures long { length self.new.numbers.items ≡ length self.old.numbers.items }
        ensures others { (p : ℕ) → (p ≡ place → ⊥) → at_place self.new.numbers.items p ≡ at_place self.old.numbers.items p }
        ensures kept { AreKept self.old.vectors self.new.vectors }
        ensures written { OnOk result (IsNumberOf self.new.vectors value.now (at_place self.new.numbers.items place)) }
        ensures scalar { IsScalar value.now → OnErr result ⊥ }
    {
        let number = match value {
            Value::Int(z) => *z,
            Value::Bool(b) => mark(*b),
            Value::Vect(zs) => self.vectors.push(zs.as_slice())?,
        };
        self.numbers[place as usize] = number;
        Ok(())
    }

    /// The value of a place, where it is of that kind.
    pub(crate) fn input(&self, kind: ColType, place: u32) -> ColumnInput<'_>
        requires { place < length self.now.numbers.items }
        ensures { (c : ℕ) → input_outcome c result ≡ Gives (value_for kind self.now.vectors (at_place self.now.numbers.items place)) }
    {
        let number = self.numbers[place as usize];
        match kind {
            ColType::Int => ColumnInput::Int(number),
            ColType::Bool => ColumnInput::Bool(number != 0),
            ColType::Vect => ColumnInput::Vect(self.vectors.at(number)),
        }
    }
}
