// What an evaluation over a block reads its columns from.
ghost use Rattle.std.specs.Prelude.{◌≡◌, ◌<◌, ◌≤◌, ◌+◌, ℕ, true, false, length, IfSome};
ghost use Rattle.rdf_model.specs.{Gives, Outcome};
ghost use Rattle.rdf_values.specs.{Value};
ghost use Rattle.expr_eval.specs.{input_outcome};
ghost use Rattle.expr_lanes.specs.Able.{is_known, HasMarks, IsVectorAt};
ghost use Rattle.expr_lanes.specs.Marks.{lane_outcome};
ghost use Rattle.expr_lanes.specs.Places.{at_place, is_given, answered_at};

use expr_eval::{ColumnInput, ScalarStop};
use rdf_values::Vects;

/// The places at which a column is known.
#[derive(Clone, Copy, Debug)]
pub enum KnownPlaces<'a> {
    Everywhere,
    Marked(&'a [bool]),
}

/// A column over a block: its numbers, where a truth value is 1 or 0, and where it is known.
#[derive(Clone, Copy, Debug)]
pub struct LaneColumn<'a> {
    pub numbers: &'a [i64],
    pub known: KnownPlaces<'a>,
}

/// A column over a block whose vectors stand in one list: the vector of the first place, and then those of the others.
#[derive(Clone, Copy)]
pub struct LaneVectors<'a> {
    pub vectors: &'a Vects,
    pub first: u32,
}

/// The columns of a block: which can be read as numbers, which can be told at a place, and what each comes to there.
pub trait LaneInputs {
    ghost size: { Self → ℕ };

    ghost can: { Self → ℕ → Type 0 };

    ghost can_tell: { Self → ℕ → Type 0 };

    ghost look: { Self → ℕ → ℕ → Outcome ℕ Value };

    /// What is known of the column over the block.
    fn column(&self, col: u32) -> LaneColumn<'_>
        requires { can self.now col }
        ensures numbers { size self.now ≤ length result.numbers.now }
        ensures marks { HasMarks (size self.now) result.known }
        ensures known { (p : ℕ) → p < size self.now → is_known result.known p ≡ true → lane_outcome (look self.now p col) ≡ Gives (at_place result.numbers.now p) }
        ensures unknown { (p : ℕ) → p < size self.now → is_known result.known p ≡ false → is_given (look self.now p col) ≡ false };

    /// Why the column has no value at the place.
    fn stop(&self, col: u32, place: u32) -> ScalarStop
        requires can { can self.now col }
        requires inside { place < size self.now }
        requires unknown { is_given (look self.now place col) ≡ false }
        ensures { lane_outcome (look self.now place col) ≡ answered_at (Err result) };

    /// What is known of the column at the place.
    fn tell(&self, col: u32, place: u32) -> ColumnInput<'_>
        requires can { can_tell self.now col }
        requires inside { place < size self.now }
        ensures { input_outcome col result ≡ look self.now place col };

    /// The column's vectors, if they stand in one list.
    fn vectors(&self, col: u32) -> Option<LaneVectors<'_>>
        requires { can_tell self.now col }
        ensures { IfSome result (λ l. (p : ℕ) → p < size self.now → IsVectorAt l.vectors.now (l.first + p) (look self.now p col)) };

    /// Whether the column is known to be one of numbers.
    fn has_numbers(&self, col: u32) -> bool
        requires { can_tell self.now col }
        ensures { result ≡ true → can self.now col };
}
