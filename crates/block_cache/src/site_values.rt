// A site's evaluation at one place of a block after another.
ghost use Rattle.std.specs.Prelude.{◌≡◌, ◌<◌, ◌+◌, true, IfOk};
ghost use Rattle.rdf_values.specs.{ColType as KindOf, FitsKind};
ghost use Rattle.expr_check.specs.{is_plain};
ghost use Rattle.expr_eval.specs.{AnswersAs, scalar_outcome, scalar_value};
ghost use Rattle.block_cache.specs.Values.{IsScalarAnswer};
ghost use Rattle.block_cache.specs.ForSites.{AreReadOver, CallsFitOver, FitAt, outcome_over};

use crate::place_view::PlaceView;
use crate::view::BlockView;
use expr_check::Checked;
use expr_eval::{EvalStop, ScalarStop, Steps, eval, eval_int};
use rdf_values::{Scalar, Value};
use std::alloc::Global;
use std::sync::ledger::Ledger;

/// A site's expression over the lanes of the keys below its own, with what its vectors take memory from.
#[derive(Drop)]
pub(crate) struct SiteValues<'a> {
    pub(crate) alloc: Global,
    pub(crate) view: BlockView<'a>,
    pub(crate) expr: &'a Checked,
}

impl SiteValues<'_> {
    /// What a place comes to, in one step.
    pub(crate) fn at<L: Ledger>(&self, place: u32, steps: &mut Steps<L>) -> Result<Value, EvalStop>
        requires inside { place < self.now.view.block.now.count }
        requires can { AreReadOver self.now.view.block.now self.now.view.lanes.now self.now.expr.now }
        requires fit { FitAt self.now.view.block.now self.now.view.lanes.now self.now.expr.now place }
        requires calls { CallsFitOver self.now.view.block.now self.now.expr.now.tree }
        ensures value { AnswersAs (λ v. v) (outcome_over self.now.view.block.now self.now.view.lanes.now self.now.expr.now.tree place) result }
        ensures kind { IfOk result (FitsKind self.now.expr.now.kind) }
        ensures plain { is_plain self.now.expr.now.kinds self.now.expr.now.tree ≡ true → IsScalarAnswer result }
        ensures step { steps.new ≡ steps.old + 1 }
    {
        let inputs = PlaceView {
            block: self.view.block,
            lanes: self.view.lanes,
            place,
        };
        let functions = self.view.block.at.job.functions;
        if self.expr.plain() {
            as_value(eval_int(self.expr, &inputs, functions, steps))
        } else {
            eval(self.alloc, self.expr, &inputs, functions, steps)
        }
    }
}

/// The answer of an evaluation without vectors.
fn as_value(answer: Result<Scalar, ScalarStop>) -> Result<Value, EvalStop>
    ensures value { AnswersAs (λ v. v) (scalar_outcome answer) result }
    ensures kind { (k : KindOf) → IfOk answer (λ s. FitsKind k (scalar_value s)) → IfOk result (FitsKind k) }
    ensures scalar { IsScalarAnswer result }
{
    match answer {
        Ok(Scalar::Int(z)) => Ok(Value::Int(z)),
        Ok(Scalar::Bool(b)) => Ok(Value::Bool(b)),
        Err(ScalarStop::Fault(kind)) => Err(EvalStop::Fault(kind)),
        Err(ScalarStop::Need(column)) => Err(EvalStop::Need(column)),
    }
}
