// Whether what an action reads can be fed, and feeding what the passes of a block give.
ghost use Rattle.std.specs.Prelude.{◌≡◌, ◌<◌, ℕ, IfOk, OnErr, OnOk, Some, ◌+◌, All, List, length};
ghost use Rattle.expr_lanes.specs.{EachPlace};
ghost use Rattle.actions.specs.{places_of, IsTake};
ghost use Rattle.loop_keys.specs.{actions_before, facts_in, IsNoTake, numbered_in, passes_in, IsPlainLoop};
ghost use Rattle.block_cache.specs.{fault_over};
ghost use Rattle.block_passes.specs.{AreHeldInTurn, IsPlainRead, CanGatherInTurn, IsKnown, IsOver, IsSelected, IsServedInTurn, KeepsRoom, of_batch, turn_job, unfed_in_turn, at_pass, CanFeedAny, CanServeAllWith, IsAmidTurn, IsClearInTurn, IsPlanOfTurn, IsReadOf, IsTurn};
ghost use Rattle.rdf_model.specs.{kinds_in};
ghost use Rattle.rdf_model.specs.declared.loop_facts.LoopFacts.{LoopFacts};
ghost use Rattle.cluster_tally.specs.{BlockStage, HoldsIn, pass_done};

use crate::copies::copy_inputs;
use crate::plan::loop_passes;
use crate::sources::{gather, lanes_in_place};
use crate::turn::{ActionRead, KeptPlaces, Turn, Work};
use actions::{Batch, BatchFault, Places, Sources};
use block_cache::Lane;
use block_cache::faults::PlaceFault;
use cluster_tally::Tally;
use expr_lanes::Selection;
use graph_numbers::Pass;
use rdf_values::Memory;

/// The places of a selection, as an action takes them.
#[tactic(auto, using(crate::proofs::Feeding::dense_places))]
pub(crate) fn batch_places(selection: &Selection) -> Places<'_>
    ensures { places_of result ≡ selection.now }
{
    let count = selection.len();
    match selection.first_count() {
        Some(_) => Places::First(count as u32),
        None => Places::Listed(selection.as_slice()),
    }
}

/// A fault of a batch as one of a block.
fn placed(fault: Option<BatchFault>) -> Option<PlaceFault>
    ensures { result ≡ of_batch fault }
{
    let BatchFault { place, kind } = fault?;
    Some(PlaceFault { place, kind })
}

/// The first of the selected places at which an action can't be fed copies of what it reads, where all of that is at hand.
#[inline(never)]
fn first_unfed_copy(
    at: &Turn<'_>,
    lanes: &[Lane],
    selection: &Selection,
    own: &ActionRead<'_>,
) -> Result<Option<PlaceFault>, Memory>
    requires over { IsOver at.now lanes.now }
    requires can { CanGatherInTurn at.now own.now lanes.now }
    requires inside { EachPlace selection.now (λ p. p < at.now.count) }
    requires hand { EachPlace selection.now (AreHeldInTurn at.now own.now lanes.now) }
    ensures fault { IfOk result (λ f. f ≡ fault_over (unfed_in_turn at.now own.now) selection.now) }
    ensures plain { IsPlainRead at.now own.now → OnErr result ⊥ }
{
    let _few = selection.len();
    let copies = copy_inputs(at, lanes, selection, own)?;
    let places = batch_places(selection);
    let sources = gather(at, lanes, &copies, own);
    Ok(placed(Batch { places, sources }.first_fault()))
}

/// The first of the selected places at which an action can't be fed what it reads, likewise.
#[inline(never)]
fn first_unfed(
    at: &Turn<'_>,
    lanes: &[Lane],
    selection: &Selection,
    own: &ActionRead<'_>,
) -> Result<Option<PlaceFault>, Memory>
    requires over { IsOver at.now lanes.now }
    requires can { CanGatherInTurn at.now own.now lanes.now }
    requires inside { EachPlace selection.now (λ p. p < at.now.count) }
    requires hand { EachPlace selection.now (AreHeldInTurn at.now own.now lanes.now) }
    ensures fault { IfOk result (λ f. f ≡ fault_over (unfed_in_turn at.now own.now) selection.now) }
    ensures plain { IsPlainRead at.now own.now → OnErr result ⊥ }
{
    let _few = selection.len();
    let mut batch = Batch {
        places: batch_places(selection),
        sources: Sources::Entry,
    };
    let Some(()) = lanes_in_place(at, lanes, own, &mut batch.sources) else {
        return first_unfed_copy(at, lanes, selection, own);
    };
    Ok(placed(batch.first_fault()))
}

/// Tests likewise what an action of several columns reads.
#[inline(never)]
fn test_several(
    at: &Turn<'_>,
    work: &mut Work,
    to: &mut KeptPlaces,
    own: &ActionRead<'_>,
) -> Result<(), Memory>
    requires known { IsKnown at.now work.old }
    requires can { CanGatherInTurn at.now own.now work.old.lanes.items }
    requires selected { IsSelected work.old.found.limit to.old }
    requires hand { EachPlace to.old.places (AreHeldInTurn at.now own.now work.old.lanes.items) }
    ensures tested { OnOk result (IsServedInTurn at.now (unfed_in_turn at.now own.now) to.old.places to.new work.old.lanes.items work.old.found work.new.found) }
    ensures lanes { work.new.lanes.items ≡ work.old.lanes.items }
    ensures room { KeepsRoom work.old work.new }
    ensures plain { IsPlainRead at.now own.now → OnErr result ⊥ }
{
    let _rising = to.places.as_slice();
    let fault = first_unfed(at, &work.lanes, &to.places, own)?;
    work.found.note(at.first, at.pass, fault);
    let _made = to.narrow(work.found.limit);
    Ok(())
}

/// Tests whether an action can be fed what it reads at the selected places, where all of that is at hand: the first at which it can't
/// lowers the limit, below which the places are left.
pub(crate) fn test_feeding(
    at: &Turn<'_>,
    work: &mut Work,
    to: &mut KeptPlaces,
    own: &ActionRead<'_>,
) -> Result<(), Memory>
    requires known { IsKnown at.now work.old }
    requires can { CanGatherInTurn at.now own.now work.old.lanes.items }
    requires selected { IsSelected work.old.found.limit to.old }
    requires hand { EachPlace to.old.places (AreHeldInTurn at.now own.now work.old.lanes.items) }
    ensures tested { OnOk result (IsServedInTurn at.now (unfed_in_turn at.now own.now) to.old.places to.new work.old.lanes.items work.old.found work.new.found) }
    ensures lanes { work.new.lanes.items ≡ work.old.lanes.items }
    ensures room { KeepsRoom work.old work.new }
    ensures plain { IsPlainRead at.now own.now → OnErr result ⊥ }
{
    // A single value that is there can be fed.
    if own.inputs.len() < 2 {
        return Ok(());
    }
    test_several(at, work, to, own)
}

/// Where a pass is fed: its place among the loop's actions, and the cluster.
#[derive(Clone, Copy, Debug)]
pub(crate) struct FedPass {
    pub(crate) place: u32,
    pub(crate) cluster: u32,
}

/// Feeds an action's pass with copies of what it reads at the selected places, at which that is at hand.
#[inline(never)]
fn feed_copies(
    at: &Turn<'_>,
    lanes: &[Lane],
    selection: &Selection,
    tally: &mut Tally,
    own: &ActionRead<'_>,
    to: FedPass,
) -> Result<(), Memory>
    requires over { IsOver at.now lanes.now }
    requires can { CanGatherInTurn at.now own.now lanes.now }
    requires inside { EachPlace selection.now (λ p. p < at.now.count) }
    requires hand { EachPlace selection.now (AreHeldInTurn at.now own.now lanes.now) }
    requires feed { (f : LoopFacts) × (watched : List ℕ) × (s : BlockStage) × CanFeedAny (turn_job at.now) at.now.first at.now.count lanes.now own.now.kind.now own.now.inputs.now own.now.under selection.now f watched s tally.old to.place to.cluster }
    ensures holds { (f : LoopFacts) (watched : List ℕ) (s : BlockStage) → CanFeedAny (turn_job at.now) at.now.first at.now.count lanes.now own.now.kind.now own.now.inputs.now own.now.under selection.now f watched s tally.old to.place to.cluster
        → OnOk result (HoldsIn f watched (pass_done s) tally.new) }
    ensures plain { IsPlainRead at.now own.now → OnErr result (IsTake own.now.kind.now) }
{
    let copies = copy_inputs(at, lanes, selection, own)?;
    let places = batch_places(selection);
    let sources = gather(at, lanes, &copies, own);
    tally.feed_batch(to.place, to.cluster, &Batch { places, sources })
}

/// Feeds an action's pass with what it reads at the places of its last step, where it can be fed with all of that.
pub(crate) fn feed_action(
    at: &Turn<'_>,
    lanes: &[Lane],
    kept: &[KeptPlaces],
    tally: &mut Tally,
    own: &ActionRead<'_>,
    to: FedPass,
) -> Result<(), Memory>
    requires over { IsOver at.now lanes.now }
    requires own { IsReadOf (turn_job at.now) at.now.pass own.now.kind.now own.now.inputs.now own.now.under }
    requires place { to.place ≡ actions_before (turn_job at.now) at.now.pass }
    requires can { CanGatherInTurn at.now own.now lanes.now }
    requires clear { (p : IsPlanOfTurn at.now) → IsClearInTurn at.now p.chains lanes.now kept.now }
    requires begin { (watched : List ℕ) × (s : BlockStage) × IsAmidTurn at.now s × (s.cluster ≡ to.cluster) × (s.passes ≡ to.place) × HoldsIn (facts_in (turn_job at.now)) watched s tally.old }
    ensures holds { (watched : List ℕ) (s : BlockStage) → IsAmidTurn at.now s → s.cluster ≡ to.cluster → s.passes ≡ to.place → HoldsIn (facts_in (turn_job at.now)) watched s tally.old
        → OnOk result (HoldsIn (facts_in (turn_job at.now)) watched (pass_done s) tally.new) }
    ensures plain { IsPlainRead at.now own.now → OnErr result (IsTake own.now.kind.now) }
{
    let last = at.plan.last_step(at.pass);
    let selection = &kept[last as usize].places;
    let mut batch = Batch {
        places: batch_places(selection),
        sources: Sources::Entry,
    };
    let Some(()) = lanes_in_place(at, lanes, own, &mut batch.sources) else {
        return feed_copies(at, lanes, selection, tally, own, to);
    };
    tally.feed_batch(to.place, to.cluster, &batch)
}

/// Feeds a pass, before which there are so many of actions, and says how many there are behind it.
#[tactic(auto, using(loop_keys::proofs::PassNumbers::report_next, loop_keys::proofs::PassNumbers::actions_few))]
fn feed_pass(
    at: &Turn<'_>,
    lanes: &[Lane],
    kept: &[KeptPlaces],
    tally: &mut Tally,
    own: Pass,
    to: FedPass,
) -> Result<u32, Memory>
    requires turn { IsTurn at.now }
    requires serve { (scratch levels : ℕ) × CanServeAllWith at.now lanes.now scratch levels }
    requires clear { (p : IsPlanOfTurn at.now) → IsClearInTurn at.now p.chains lanes.now kept.now }
    requires own { numbered_in (turn_job at.now) at.now.pass ≡ Some own }
    requires few { at.now.pass < 4294967295 }
    requires place { to.place ≡ actions_before (turn_job at.now) at.now.pass }
    requires begin { (watched : List ℕ) × (s : BlockStage) × IsAmidTurn at.now s × (s.cluster ≡ to.cluster) × (s.passes ≡ to.place) × HoldsIn (facts_in (turn_job at.now)) watched s tally.old }
    ensures place { IfOk result (λ next. next ≡ actions_before (turn_job at.now) (at.now.pass + 1)) }
    ensures holds { IfOk result (λ next. (watched : List ℕ) (s : BlockStage) → IsAmidTurn at.now s → s.cluster ≡ to.cluster → s.passes ≡ to.place → HoldsIn (facts_in (turn_job at.now)) watched s tally.old
        → HoldsIn (facts_in (turn_job at.now)) watched (at_pass s next) tally.new) }
    ensures plain { IsPlainLoop (turn_job at.now) → All IsNoTake (kinds_in (passes_in (turn_job at.now))) → OnErr result ⊥ }
{
    let Some(read) = at.action_read(own) else {
        return Ok(to.place);
    };
    feed_action(at, lanes, kept, tally, &read, to)?;
    Ok(to.place + 1)
}

/// Feeds all action passes of a block in which no pass faults.
pub(crate) fn feed_passes(
    at: &Turn<'_>,
    lanes: &[Lane],
    kept: &[KeptPlaces],
    tally: &mut Tally,
    cluster: u32,
) -> Result<(), Memory>
    requires turn { IsTurn at.now }
    requires serve { (scratch levels : ℕ) × CanServeAllWith at.now lanes.now scratch levels }
    requires clear { (p : IsPlanOfTurn at.now) → IsClearInTurn at.now p.chains lanes.now kept.now }
    requires begin { (watched : List ℕ) × (s : BlockStage) × IsAmidTurn at.now s × (s.cluster ≡ cluster) × (s.passes ≡ 0) × HoldsIn (facts_in (turn_job at.now)) watched s tally.old }
    ensures holds { (watched : List ℕ) (s : BlockStage) → IsAmidTurn at.now s → s.cluster ≡ cluster → s.passes ≡ 0 → HoldsIn (facts_in (turn_job at.now)) watched s tally.old
        → OnOk result (HoldsIn (facts_in (turn_job at.now)) watched (at_pass s (length (kinds_in (passes_in (turn_job at.now))))) tally.new) }
    ensures plain { IsPlainLoop (turn_job at.now) → All IsNoTake (kinds_in (passes_in (turn_job at.now))) → OnErr result ⊥ }
{
    let mut place = 0;
    let passes = loop_passes(at.job);
    let mut turn = *at;
    for (pass, own) in passes.iter().enumerate() {
        turn.go_to(pass as u32);
        place = feed_pass(&turn, lanes, kept, tally, *own, FedPass { place, cluster })?;
    }
    Ok(())
}
