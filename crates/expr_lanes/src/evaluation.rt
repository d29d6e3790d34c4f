// Evaluation of an expression over a block.
ghost use Rattle.std.specs.Prelude.{◌≡◌, ◌+◌, ◌<◌, ◌≤◌, ℕ, false, length, All};
ghost use Rattle.rdf_values.specs.{fn_names};
ghost use Rattle.rdf_model.specs.{call_outcome, evaluate, FitsOutcome};
ghost use Rattle.entry_fns.specs.{functions_in};
ghost use Rattle.expr_check.specs.{CallsFit, is_vector};
ghost use Rattle.expr_lanes.specs.{CanLane, depth, HasValues, IsReady};

use crate::MAX_PLACES;
use crate::lane_inputs::{LaneColumn, LaneInputs, LaneVectors};
use crate::nodes::eval_node;
use crate::parting::Stopped;
use crate::scratch::Scratch;
use crate::selection::Selection;
use arrayvec::ArrayVec;
use entry_fns::FnList;
use expr_check::Checked;
use expr_eval::{Calls, ColumnInput, ScalarStop, Steps, callable};
use std::sync::ledger::Ledger;

/// An expression that is evaluated over a block: with what it reads and the functions that it calls.
#[derive_where(Clone, Copy)]
pub struct Evaluation<'a, I> {
    pub expr: &'a Checked,
    pub inputs: &'a I,
    pub functions: &'a FnList,
}

impl<'a, I: LaneInputs> LaneInputs for Evaluation<'a, I> {
    ghost size = { λ e. I.size e.inputs.now };

    ghost can = { λ e c. I.can e.inputs.now c };

    ghost can_tell = { λ e c. I.can_tell e.inputs.now c };

    ghost look = { λ e p c. I.look e.inputs.now p c };

    fn column(&self, col: u32) -> LaneColumn<'_> {
        self.inputs.column(col)
    }

    fn stop(&self, col: u32, place: u32) -> ScalarStop {
        self.inputs.stop(col, place)
    }

    fn tell(&self, col: u32, place: u32) -> ColumnInput<'_> {
        self.inputs.tell(col, place)
    }

    fn vectors(&self, col: u32) -> Option<LaneVectors<'_>> {
        self.inputs.vectors(col)
    }

    fn has_numbers(&self, col: u32) -> bool {
        self.inputs.has_numbers(col)
    }
}

impl<'a, I: LaneInputs> Calls for Evaluation<'a, I> {
    ghost functions = { λ e. functions_in e.functions.now };

    fn call_at(&self, number: u32, args: &[i64]) -> Option<i64> {
        self.functions.call(number, args)
    }
}

/// Evaluates an expression at the selected places of a block, in a step each. It takes no memory.
pub fn eval_lane<I: LaneInputs, L: Ledger>(
    evaluation: &Evaluation<'_, I>,
    selection: &mut Selection,
    lane: &mut [i64],
    stops: &mut ArrayVec<Stopped, MAX_PLACES>,
    scratch: &mut [Scratch],
    steps: &mut Steps<L>,
)
    requires scalar { is_vector evaluation.now.expr.now.kind ≡ false }
    requires can { CanLane (I.can evaluation.now.inputs.now) (I.can_tell evaluation.now.inputs.now) evaluation.now.expr.now.tree }
    requires fit { (p : ℕ) → p < I.size evaluation.now.inputs.now → All (λ c. FitsOutcome c.1 (I.look evaluation.now.inputs.now p c.0)) evaluation.now.expr.now.kinds }
    requires calls { CallsFit (fn_names (functions_in evaluation.now.functions.now)) evaluation.now.expr.now.tree }
    requires deep { depth evaluation.now.expr.now.tree ≤ length scratch.old }
    requires ready { IsReady (I.size evaluation.now.inputs.now) selection.old lane.old stops.old.items }
    ensures values { HasValues evaluation.now.expr.now.kind (λ p. evaluate (I.look evaluation.now.inputs.now p) (call_outcome (functions_in evaluation.now.functions.now)) evaluation.now.expr.now.tree) selection.old selection.new lane.old lane.new stops.old.items stops.new.items }
    ensures steps { steps.new ≡ steps.old + length selection.old }
{
    steps.add(selection.len() as u64);
    let node = callable(evaluation.expr, evaluation.functions);
    eval_node(node, evaluation, selection, lane, stops, scratch)
}
