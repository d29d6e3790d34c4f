// Trying the passes of a loop over a block.
ghost use Rattle.std.specs.Prelude.{◌≡◌, ◌<◌, OnOk, Some, OnErr, None, length};
ghost use Rattle.std.specs.List.{AllByRecursion};
ghost use Rattle.block_passes.specs.{CanSelectInTurn, CanServeInTurn, IsPassTried, IsPlanOfTurn, IsReadyInTurn, IsTurn, Leaves, filter_fault, filters_fault, IsNamedMade, IsTriedTo, turn_job, CanServeAllInTurn, IsReadOf, IsSearchedTo};
ghost use Rattle.loop_keys.specs.{IsCovered, numbered_in, passes_in, IsPlainLoop};

use crate::feed::test_feeding;
use crate::inputs::serve_inputs;
use crate::plan::loop_passes;
use crate::select::select_again;
use crate::turn::{ActionRead, KeptPlaces, Turn, Work};
use expr_eval::Steps;
use graph_numbers::Pass;
use rdf_values::Memory;
use std::sync::ledger::Ledger;

/// Tries the pass of an action at the places below the limit: its filters, what it reads, and whether it can be fed that.
pub(crate) fn try_action<L: Ledger>(
    at: &Turn<'_>,
    work: &mut Work,
    kept: &mut [KeptPlaces],
    own: &ActionRead<'_>,
    steps: &mut Steps<L>,
) -> Result<(), Memory>
    requires turn { IsTurn at.now }
    requires can { CanSelectInTurn at.now work.old }
    requires serve { AllByRecursion (CanServeInTurn at.now own.now.under work.old) own.now.inputs.now }
    requires action { IsReadOf (turn_job at.now) at.now.pass own.now.kind.now own.now.inputs.now own.now.under }
    requires ready { (p : IsPlanOfTurn at.now) → IsReadyInTurn at.now p.chains work.old.found.limit work.old.lanes.items kept.old }
    ensures leaves { Leaves at.now work.old work.new steps.old steps.new }
    ensures tried { (p : IsPlanOfTurn at.now)
        → OnOk result (IsPassTried (turn_job at.now) at.now.first at.now.count at.now.plan.now p.chains at.now.pass work.new.lanes.items kept.old kept.new work.old.found work.new.found) }
    ensures plain { IsPlainLoop (turn_job at.now) → OnErr result ⊥ }
{
    let last = at.plan.last_step(at.pass);
    select_again(at, work, kept, last, steps)?;
    let to = &mut kept[last as usize];
    serve_inputs(at, work, to, own.inputs, own.under, steps)?;
    test_feeding(at, work, to, own)
}

/// Tries a named filter, with those above it, at the places below the limit.
fn try_filter<L: Ledger>(
    at: &Turn<'_>,
    work: &mut Work,
    kept: &mut [KeptPlaces],
    filter: u32,
    steps: &mut Steps<L>,
) -> Result<(), Memory>
    requires turn { IsTurn at.now }
    requires can { CanSelectInTurn at.now work.old }
    requires covered { IsCovered (turn_job at.now) filter }
    requires ready { (p : IsPlanOfTurn at.now) → IsReadyInTurn at.now p.chains work.old.found.limit work.old.lanes.items kept.old }
    ensures leaves { Leaves at.now work.old work.new steps.old steps.new }
    ensures tried { (p : IsPlanOfTurn at.now)
        → OnOk result (IsTriedTo (turn_job at.now) at.now.first at.now.count p.chains (filter_fault (turn_job at.now) at.now.first filter) at.now.pass work.new.lanes.items kept.old kept.new work.old.found work.new.found (IsNamedMade at.now.count at.now.plan.now kept.new filter)) }
    ensures plain { IsPlainLoop (turn_job at.now) → OnErr result ⊥ }
{
    match at.plan.named(filter) {
        Some(named) => match select_again(at, work, kept, named.above, steps) {
            Ok(()) => select_again(at, work, kept, named.own, steps),
            Err(Memory) => Err(Memory),
        },
        None => unreachable!(),
    }
}

/// Tries named filters one after another, likewise.
pub(crate) fn try_filters<L: Ledger>(
    at: &Turn<'_>,
    work: &mut Work,
    kept: &mut [KeptPlaces],
    filters: &[u32],
    steps: &mut Steps<L>,
) -> Result<(), Memory>
    requires turn { IsTurn at.now }
    requires can { CanSelectInTurn at.now work.old }
    requires covered { AllByRecursion (IsCovered (turn_job at.now)) filters.now }
    requires ready { (p : IsPlanOfTurn at.now) → IsReadyInTurn at.now p.chains work.old.found.limit work.old.lanes.items kept.old }
    ensures leaves { Leaves at.now work.old work.new steps.old steps.new }
    ensures tried { (p : IsPlanOfTurn at.now)
        → OnOk result (IsTriedTo (turn_job at.now) at.now.first at.now.count p.chains (filters_fault (turn_job at.now) at.now.first filters.now) at.now.pass work.new.lanes.items kept.old kept.new work.old.found work.new.found (AllByRecursion (IsNamedMade at.now.count at.now.plan.now kept.new) filters.now)) }
    ensures plain { IsPlainLoop (turn_job at.now) → OnErr result ⊥ }
{
    let Some((filter, rest)) = filters.split_first() else {
        return Ok(());
    };
    try_filter(at, work, kept, *filter, steps)?;
    try_filters(at, work, kept, rest, steps)
}

/// Tries a pass at the places below the limit.
pub(crate) fn try_pass<L: Ledger>(
    at: &Turn<'_>,
    work: &mut Work,
    kept: &mut [KeptPlaces],
    own: Pass,
    steps: &mut Steps<L>,
) -> Result<(), Memory>
    requires turn { IsTurn at.now }
    requires can { CanSelectInTurn at.now work.old }
    requires serve { CanServeAllInTurn at.now work.old }
    requires own { numbered_in (turn_job at.now) at.now.pass ≡ Some own }
    requires ready { (p : IsPlanOfTurn at.now) → IsReadyInTurn at.now p.chains work.old.found.limit work.old.lanes.items kept.old }
    ensures leaves { Leaves at.now work.old work.new steps.old steps.new }
    ensures tried { (p : IsPlanOfTurn at.now)
        → OnOk result (IsPassTried (turn_job at.now) at.now.first at.now.count at.now.plan.now p.chains at.now.pass work.new.lanes.items kept.old kept.new work.old.found work.new.found) }
    ensures plain { IsPlainLoop (turn_job at.now) → OnErr result ⊥ }
{
    match at.action_read(own) {
        Some(read) => try_action(at, work, kept, &read, steps),
        None => try_filters(at, work, kept, at.job.graph.covered(own.result), steps),
    }
}

/// Tries all passes over a block, of which none was tried: the search for its first fault.
pub(crate) fn try_passes<L: Ledger>(
    at: &Turn<'_>,
    work: &mut Work,
    kept: &mut [KeptPlaces],
    steps: &mut Steps<L>,
) -> Result<(), Memory>
    requires turn { IsTurn at.now }
    requires can { CanSelectInTurn at.now work.old }
    requires serve { CanServeAllInTurn at.now work.old }
    requires begun { work.old.found ≡ record { limit = at.now.count; best = None } }
    requires ready { (p : IsPlanOfTurn at.now) → IsReadyInTurn at.now p.chains at.now.count work.old.lanes.items kept.old }
    ensures leaves { Leaves at.now work.old work.new steps.old steps.new }
    ensures searched { (p : IsPlanOfTurn at.now)
        → OnOk result (IsSearchedTo (turn_job at.now) at.now.first at.now.count at.now.plan.now p.chains (length (passes_in (turn_job at.now))) work.new.lanes.items kept.new work.new.found) }
    ensures plain { IsPlainLoop (turn_job at.now) → OnErr result ⊥ }
{
    let passes = loop_passes(at.job);
    let mut turn = *at;
    for (pass, own) in passes.iter().enumerate() {
        turn.go_to(pass as u32);
        try_pass(&turn, work, kept, *own, steps)?;
    }
    Ok(())
}
