// One evaluation of a site over a block.
ghost use Rattle.std.specs.Prelude.{◌≡◌, ◌+◌, ◌++◌, ◌<◌, ◌≤◌, ℕ, true, false, length, slice_get, Some, OnOk, OnErr};
ghost use Rattle.expr_check.specs.{is_plain};
ghost use Rattle.expr_lanes.specs.{depth, EachPlace, IsSelected};
ghost use Rattle.block_cache.specs.{AreReadOver, AreReadyOver, CallsFitOver, CanTryFor, FitAt, IfPlain, is_held, IsBegun, IsBegunFor, IsEvaluated, IsTriedFor, key_over, LaneView, outcome_over, own_key};

use crate::Lane;
use crate::able::can_evaluate;
use crate::block::Wanted;
use crate::level::Level;
use crate::site_values::SiteValues;
use crate::view::BlockView;
use arrayvec::ArrayVec;
use expr_eval::Steps;
use expr_lanes::{Evaluation, MAX_PLACES, Scratch, Selection, Stopped};
use loop_keys::reading::{expression, key};
use rdf_values::Memory;
use std::sync::ledger::Ledger;

/// Evaluates a site's expression at the selected places into the lane of its key: at all places at once where it can be.
#[inline(always)]
fn try_own<L: Ledger>(
    values: &SiteValues<'_>,
    own: &mut Lane,
    selection: &mut Selection,
    stops: &mut ArrayVec<Stopped, MAX_PLACES>,
    scratch: &mut [Scratch],
    steps: &mut Steps<L>,
) -> Result<(), Memory>
    requires kind { values.now.expr.now.kind ≡ own.old.kind }
    requires can { AreReadOver values.now.view.block.now values.now.view.lanes.now values.now.expr.now }
    requires fit { (p : ℕ) → p < values.now.view.block.now.count → FitAt values.now.view.block.now values.now.view.lanes.now values.now.expr.now p }
    requires calls { CallsFitOver values.now.view.block.now values.now.expr.now.tree }
    requires deep { depth values.now.expr.now.tree ≤ length scratch.old }
    requires block { values.now.view.block.now.count ≡ own.old.count }
    requires selected { IsSelected values.now.view.block.now.count selection.old stops.old.items }
    requires unknown { EachPlace selection.old (λ p. is_held own.old p ≡ false) }
    ensures evaluated { OnOk result (IsEvaluated (outcome_over values.now.view.block.now values.now.view.lanes.now values.now.expr.now.tree) selection.old selection.new own.old own.new stops.old.items stops.new.items) }
    ensures begun { OnErr result (IsBegun selection.old own.old own.new) }
    ensures steps { OnOk result (steps.new ≡ steps.old + length selection.old) }
    ensures few { steps.new ≤ steps.old + length selection.old }
    ensures plain { is_plain values.now.expr.now.kinds values.now.expr.now.tree ≡ true → OnErr result ⊥ }
{
    if !can_evaluate(values.expr, &values.view) {
        return own.evaluate_each(values, selection, stops, steps);
    }
    let evaluation = Evaluation {
        expr: values.expr,
        inputs: &values.view,
        functions: values.view.block.at.job.functions,
    };
    own.evaluate(&evaluation, selection, stops, scratch, steps);
    Ok(())
}

/// Evaluates a site by the lanes of the keys below its own, and the others, of which its own is the first.
#[inline(always)]
#[tactic(auto, using(crate::proofs::OverLaws::own_there, crate::proofs::OverLaws::own_count))]
fn try_first<L: Ledger>(
    wanted: &Wanted<'_>,
    below: &[Lane],
    others: &mut [Lane],
    level: &mut Level,
    scratch: &mut [Scratch],
    steps: &mut Steps<L>,
) -> Result<(), Memory>
    requires own { length below.now ≡ key_over wanted.now.block.now wanted.now.site }
    requires ready { AreReadyOver wanted.now.block.now (below.now ++ others.old) }
    requires can { CanTryFor wanted.now (below.now ++ others.old) (length scratch.old) }
    requires selected { IsSelected wanted.now.block.now.count level.old.group level.old.stops.items }
    requires unknown { (l : LaneView) → slice_get (below.now ++ others.old) (own_key wanted.now) ≡ Some l → EachPlace level.old.group (λ p. is_held l p ≡ false) }
    ensures tried { OnOk result (IsTriedFor wanted.now level.old.group level.new.group (below.now ++ others.old) (below.now ++ others.new) level.old.stops.items level.new.stops.items) }
    ensures begun { OnErr result (IsBegunFor wanted.now level.old.group (below.now ++ others.old) (below.now ++ others.new)) }
    ensures lacking { level.new.lacking ≡ level.old.lacking }
    ensures needs { level.new.needs ≡ level.old.needs }
    ensures steps { OnOk result (steps.new ≡ steps.old + length level.old.group) }
    ensures few { steps.new ≤ steps.old + length level.old.group }
    ensures plain { IfPlain wanted.now (OnErr result ⊥) }
{
    let values = SiteValues {
        alloc: others[0].alloc(),
        view: BlockView {
            block: wanted.block,
            lanes: below,
        },
        expr: expression(wanted.block.at, wanted.site),
    };
    try_own(
        &values,
        &mut others[0],
        &mut level.group,
        &mut level.stops,
        scratch,
        steps,
    )
}

/// Evaluates a site at the places of the level's group, over what is held of the sites below.
#[inline(always)]
pub(crate) fn try_lane<L: Ledger>(
    wanted: &Wanted<'_>,
    lanes: &mut [Lane],
    level: &mut Level,
    scratch: &mut [Scratch],
    steps: &mut Steps<L>,
) -> Result<(), Memory>
    requires ready { AreReadyOver wanted.now.block.now lanes.old }
    requires can { CanTryFor wanted.now lanes.old (length scratch.old) }
    requires selected { IsSelected wanted.now.block.now.count level.old.group level.old.stops.items }
    requires unknown { (l : LaneView) → slice_get lanes.old (own_key wanted.now) ≡ Some l → EachPlace level.old.group (λ p. is_held l p ≡ false) }
    ensures tried { OnOk result (IsTriedFor wanted.now level.old.group level.new.group lanes.old lanes.new level.old.stops.items level.new.stops.items) }
    ensures begun { OnErr result (IsBegunFor wanted.now level.old.group lanes.old lanes.new) }
    ensures lacking { level.new.lacking ≡ level.old.lacking }
    ensures needs { level.new.needs ≡ level.old.needs }
    ensures steps { OnOk result (steps.new ≡ steps.old + length level.old.group) }
    ensures few { steps.new ≤ steps.old + length level.old.group }
    ensures plain { IfPlain wanted.now (OnErr result ⊥) }
{
    let own = key(wanted.block.at, wanted.site);
    let (below, others) = lanes.split_at_mut(own);
    try_first(wanted, below, others, level, scratch, steps)
}
