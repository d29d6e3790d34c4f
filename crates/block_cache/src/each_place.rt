// Evaluation at one place after another.
ghost use Rattle.std.specs.Prelude.{◌≡◌, ◌<◌, ◌≤◌, ◌+◌, ℕ, true, length, IfOk, OnOk, OnErr};
ghost use Rattle.rdf_values.specs.{ColType as KindOf, FitsKind, Value as ValueOf};
ghost use Rattle.rdf_model.specs.{Outcome};
ghost use Rattle.expr_eval.specs.{AnswersAs};
ghost use Rattle.expr_lanes.specs.{EachPlace};
ghost use Rattle.expr_check.specs.{is_plain};
ghost use Rattle.block_cache.specs.{AreReadOver, AreWritten, CallsFitOver, FitAt, HaveCome, IsScalarAnswer, IsTurned, IsWritten, outcome_over};

use crate::site_values::SiteValues;
use crate::values::Values;
use arrayvec::ArrayVec;
use expr_eval::{EvalStop, ScalarStop, Steps};
use expr_lanes::{MAX_PLACES, Stopped};
use rdf_values::{Memory, Value};
use std::sync::ledger::Ledger;

/// Writes the value of a place, or marks it as stopped.
fn turn(
    place: u32,
    answer: &Result<Value, EvalStop>,
    values: &mut Values,
    stopped: &mut [bool],
    stops: &mut ArrayVec<Stopped, MAX_PLACES>,
) -> Result<(), Memory>
    requires inside { place < length values.old.numbers.items }
    requires marks { place < length stopped.old }
    requires room { length stops.old.items < MAX_PLACES }
    ensures written { IsWritten place values.old.numbers.items values.new.numbers.items values.old.vectors values.new.vectors }
    ensures turned { (kind : KindOf) (o : Outcome ℕ ValueOf) → AnswersAs (λ v. v) o answer.now → IfOk answer.now (FitsKind kind)
        → OnOk result (IsTurned kind o place values.new.numbers.items values.new.vectors stopped.old stopped.new stops.old.items stops.new.items) }
    ensures scalar { IsScalarAnswer answer.now → OnErr result ⊥ }
{
    let stop = match answer {
        Ok(value) => {
            stopped[place as usize] = false;
            return values.write(place, value);
        }
        Err(EvalStop::Fault(kind)) => ScalarStop::Fault(*kind),
        Err(EvalStop::Need(column)) => ScalarStop::Need(*column),
        Err(EvalStop::Memory) => return Err(Memory),
    };
    stopped[place as usize] = true;
    stops.push(Stopped { place, stop });
    Ok(())
}

/// Evaluates at the places of a list, in a step each: writes the value of each that comes to one, and marks the others.
#[tactic(auto, using(crate::proofs::LaneSteps::written_on, expr_lanes::proofs::Composed::is_in_at))]
pub(crate) fn each_place<L: Ledger>(
    evaluation: &SiteValues<'_>,
    places: &[u32],
    values: &mut Values,
    stopped: &mut [bool],
    stops: &mut ArrayVec<Stopped, MAX_PLACES>,
    steps: &mut Steps<L>,
) -> Result<(), Memory>
    requires can { AreReadOver evaluation.now.view.block.now evaluation.now.view.lanes.now evaluation.now.expr.now }
    requires fit { EachPlace places.now (λ p. (p < evaluation.now.view.block.now.count) × FitAt evaluation.now.view.block.now evaluation.now.view.lanes.now evaluation.now.expr.now p) }
    requires calls { CallsFitOver evaluation.now.view.block.now evaluation.now.expr.now.tree }
    requires inside { EachPlace places.now (λ p. p < length values.old.numbers.items) }
    requires marks { EachPlace places.now (λ p. p < length stopped.old) }
    requires room { length stops.old.items + length places.now ≤ MAX_PLACES }
    ensures written { AreWritten places.now values.old.numbers.items values.new.numbers.items values.old.vectors values.new.vectors }
    ensures come { OnOk result (HaveCome evaluation.now.expr.now.kind (outcome_over evaluation.now.view.block.now evaluation.now.view.lanes.now evaluation.now.expr.now.tree) places.now values.new.numbers.items values.new.vectors stopped.new stops.old.items stops.new.items) }
    ensures steps { OnOk result (steps.new ≡ steps.old + length places.now) }
    ensures few { steps.new ≤ steps.old + length places.now }
    ensures plain { is_plain evaluation.now.expr.now.kinds evaluation.now.expr.now.tree ≡ true → OnErr result ⊥ }
{
    for i in 0..places.len() {
        let place = places[i];
        let answer = evaluation.at(place, steps);
        turn(place, &answer, values, stopped, stops)?;
    }
    Ok(())
}
