// Calls with the numbers that several lanes hold.
ghost use Rattle.std.specs.Prelude.{◌≡◌, ◌+◌, ◌<◌, ◌≤◌, ◌++◌, length, slice_get};
ghost use Rattle.rdf_values.specs.declared.expressions.num_expr.Callee.TheVariants as fn;
ghost use Rattle.expr_eval.specs.{CallFits};
ghost use Rattle.expr_lanes.specs.Marks.{numbers_at, lane_call, given_number};
ghost use Rattle.expr_lanes.specs.Places.{EachPlace, Evaluated};

use crate::MAX_PLACES;
use crate::kernel::{Kernel, run};
use crate::kernels::{Copied, LaneNumbers, Magnitude, Same};
use crate::parting::Stopped;
use crate::scratch::Scratch;
use crate::selection::Selection;
use arrayvec::ArrayVec;
use expr_eval::{Calls, ScalarStop};
use rdf_values::{Callee, EntryFault};

const MAX_ARGUMENTS: usize = 8;

/// Appends what each lane holds at the place.
fn numbers_of(lanes: &[Scratch], place: u32, numbers: &mut ArrayVec<i64, MAX_ARGUMENTS>)
    requires room { length numbers.old.items + length lanes.now ≤ MAX_ARGUMENTS }
    requires inside { place < MAX_PLACES }
    ensures { numbers.new.items ≡ numbers.old.items ++ numbers_at lanes.now place }
{
    for lane in lanes {
        numbers.push(lane.left[place as usize]);
    }
}

/// A function of the list, called with what the lanes hold at a place.
#[derive(Drop)]
struct Called<'a, C: Calls> {
    calls: &'a C,
    number: u32,
    lanes: &'a [Scratch],
}

impl<'a, C: Calls> Kernel for Called<'a, C> {
    ghost use Rattle.expr_lanes.specs.declared.TheConstants.{MAX_PLACES};

    ghost can = { λ s p. (p < MAX_PLACES) × (length s.lanes.now ≤ 8) × CallFits (C.functions s.calls.now) (fn.Given s.number) (length s.lanes.now) };

    ghost gives = { λ s p. given_number (slice_get (C.functions s.calls.now) s.number) (numbers_at s.lanes.now p) };

    fn at(&self, place: u32) -> Result<i64, ScalarStop> {
        let mut numbers = ArrayVec::new();
        numbers_of(self.lanes, place, &mut numbers);
        let answer = self.calls.call_at(self.number, numbers.as_slice());
        answer.ok_or(ScalarStop::Fault(EntryFault::Function))
    }
}

/// Calls the callee at each selected place, with what the lanes hold there.
pub(crate) fn call_lanes<C: Calls>(
    callee: Callee,
    calls: &C,
    lanes: &[Scratch],
    selection: &mut Selection,
    lane: &mut [i64],
    stops: &mut ArrayVec<Stopped, MAX_PLACES>,
)
    requires fits { CallFits (C.functions calls.now) callee (length lanes.now) }
    requires few { length lanes.now ≤ 8 }
    requires inside { EachPlace selection.old (λ p. (p < length lane.old) × (p < MAX_PLACES)) }
    requires room { length stops.old.items + length selection.old ≤ MAX_PLACES }
    ensures { Evaluated (λ p. lane_call (C.functions calls.now) callee (numbers_at lanes.now p)) selection.old selection.new lane.old lane.new stops.old.items stops.new.items }
{
    match (callee, lanes) {
        (Callee::Abs, [argument]) => {
            run(
                &Magnitude(LaneNumbers(&argument.left)),
                selection,
                lane,
                stops,
            )
        }
        (Callee::Given(number), _) => {
            let step = Called {
                calls,
                number,
                lanes,
            };
            run(&step, selection, lane, stops)
        }
        _ => run(&Copied(Same(0)), selection, lane, stops),
    }
}
