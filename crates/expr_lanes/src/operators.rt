// Operators over the places of a selection.
ghost use Rattle.std.specs.Prelude.{◌<◌, ◌≤◌, ◌+◌, length};
ghost use Rattle.rdf_model.specs.{number_operation};
ghost use Rattle.expr_lanes.specs.{EachPlace, Evaluated, HasNumber, side_number};

use crate::MAX_PLACES;
use crate::kernel::run;
use crate::kernels::{Combined, LaneNumbers, PlaceNumbers, Same, Side};
use crate::parting::Stopped;
use crate::selection::Selection;
use arrayvec::ArrayVec;
use rdf_values::BinOp;

// Each operator is a kernel of its own, since a choice by operator at each place would be the dearest part of the loop: the
// kernel's operator is a constant in each arm.

/// The operator between two numbers of each selected place.
fn combine<A: PlaceNumbers, B: PlaceNumbers>(
    op: BinOp,
    left: A,
    right: B,
    selection: &mut Selection,
    lane: &mut [i64],
    stops: &mut ArrayVec<Stopped, MAX_PLACES>,
)
    requires left { EachPlace selection.old (A.has left) }
    requires right { EachPlace selection.old (B.has right) }
    requires inside { EachPlace selection.old (λ p. p < length lane.old) }
    requires room { length stops.old.items + length selection.old ≤ MAX_PLACES }
    ensures { Evaluated (λ p. number_operation op (A.number left p) (B.number right p)) selection.old selection.new lane.old lane.new stops.old.items stops.new.items }
{
    match op {
        BinOp::Add => run(&Combined(BinOp::Add, left, right), selection, lane, stops),
        BinOp::Sub => run(&Combined(BinOp::Sub, left, right), selection, lane, stops),
        BinOp::Mul => run(&Combined(BinOp::Mul, left, right), selection, lane, stops),
        BinOp::Div => run(&Combined(BinOp::Div, left, right), selection, lane, stops),
        BinOp::Rem => run(&Combined(BinOp::Rem, left, right), selection, lane, stops),
        BinOp::Lt => run(&Combined(BinOp::Lt, left, right), selection, lane, stops),
        BinOp::Le => run(&Combined(BinOp::Le, left, right), selection, lane, stops),
        BinOp::Gt => run(&Combined(BinOp::Gt, left, right), selection, lane, stops),
        BinOp::Ge => run(&Combined(BinOp::Ge, left, right), selection, lane, stops),
        BinOp::Eq => run(&Combined(BinOp::Eq, left, right), selection, lane, stops),
        BinOp::Ne => run(&Combined(BinOp::Ne, left, right), selection, lane, stops),
        BinOp::And => run(&Combined(BinOp::And, left, right), selection, lane, stops),
        BinOp::Or => run(&Combined(BinOp::Or, left, right), selection, lane, stops),
    }
}

/// The operator between two sides at each selected place.
pub(crate) fn combine_sides(
    op: BinOp,
    left: Side<'_>,
    right: Side<'_>,
    selection: &mut Selection,
    lane: &mut [i64],
    stops: &mut ArrayVec<Stopped, MAX_PLACES>,
)
    requires left { EachPlace selection.old (HasNumber left) }
    requires right { EachPlace selection.old (HasNumber right) }
    requires inside { EachPlace selection.old (λ p. p < length lane.old) }
    requires room { length stops.old.items + length selection.old ≤ MAX_PLACES }
    ensures { Evaluated (λ p. number_operation op (side_number left.entry p) (side_number right.entry p)) selection.old selection.new lane.old lane.new stops.old.items stops.new.items }
{
    match (left, right) {
        (Side::Number(x), Side::Number(y)) => {
            combine(op, Same(x), Same(y), selection, lane, stops)
        }
        (Side::Number(x), Side::Lane(ys)) => {
            combine(op, Same(x), LaneNumbers(ys), selection, lane, stops)
        }
        (Side::Lane(xs), Side::Number(y)) => {
            combine(op, LaneNumbers(xs), Same(y), selection, lane, stops)
        }
        (Side::Lane(xs), Side::Lane(ys)) => {
            combine(op, LaneNumbers(xs), LaneNumbers(ys), selection, lane, stops)
        }
    }
}
