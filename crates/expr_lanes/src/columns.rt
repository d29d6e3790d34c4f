// The values of a column.
ghost use Rattle.std.specs.Prelude.{◌≡◌, ◌<◌, true, false, length};
ghost use Rattle.rdf_model.specs.{Gives};
ghost use Rattle.expr_lanes.specs.Marks.{lane_outcome};
ghost use Rattle.expr_lanes.specs.Places.{at_place, is_given, is_marked, IsReady, Evaluated};

use crate::MAX_PLACES;
use crate::kernel::{Kernel, run};
use crate::kernels::{Copied, LaneNumbers};
use crate::lane_inputs::{KnownPlaces, LaneInputs};
use crate::parting::Stopped;
use crate::selection::Selection;
use arrayvec::ArrayVec;
use expr_eval::ScalarStop;

/// A column that is known at some places.
#[derive(Drop)]
struct PartOfColumn<'a, S: LaneInputs> {
    scope: &'a S,
    number: u32,
    numbers: &'a [i64],
    marks: &'a [bool],
}

impl<'a, S: LaneInputs> Kernel for PartOfColumn<'a, S> {
    ghost can = { λ s p. (p < S.size s.scope.now) × (p < length s.numbers.now) × (p < length s.marks.now) × S.can s.scope.now s.number
        × (is_marked s.marks.now p ≡ true → lane_outcome (S.look s.scope.now p s.number) ≡ Gives (at_place s.numbers.now p))
        × (is_marked s.marks.now p ≡ false → is_given (S.look s.scope.now p s.number) ≡ false) };

    ghost gives = { λ s p. lane_outcome (S.look s.scope.now p s.number) };

    #[inline(always)]
    fn at(&self, place: u32) -> Result<i64, ScalarStop> {
        if self.marks[place as usize] {
            Ok(self.numbers[place as usize])
        } else {
            Err(self.scope.stop(self.number, place))
        }
    }
}

/// Writes the values of the column into the lane.
pub(crate) fn read_column<S: LaneInputs>(
    number: u32,
    scope: &S,
    selection: &mut Selection,
    lane: &mut [i64],
    stops: &mut ArrayVec<Stopped, MAX_PLACES>,
)
    requires can { S.can scope.now number }
    requires ready { IsReady (S.size scope.now) selection.old lane.old stops.old.items }
    ensures { Evaluated (λ p. lane_outcome (S.look scope.now p number)) selection.old selection.new lane.old lane.new stops.old.items stops.new.items }
{
    let column = scope.column(number);
    let numbers = column.numbers;
    match column.known {
        KnownPlaces::Everywhere => run(&Copied(LaneNumbers(numbers)), selection, lane, stops),
        KnownPlaces::Marked(marks) => {
            let part = PartOfColumn {
                scope,
                number,
                numbers,
                marks,
            };
            run(&part, selection, lane, stops)
        }
    }
}
