// Selecting the places of a block that pass filters.
ghost use Rattle.std.specs.Prelude.{◌≡◌, ◌<◌, ◌+◌, ◌++◌, ℕ, OnOk, Some, length, slice_get, OnErr, Bool, true};
ghost use Rattle.rdf_values.specs.declared.tables.value.ColType.TheVariants as kind;
ghost use Rattle.graph_numbers.specs.{graph_sites};
ghost use Rattle.expr_lanes.specs.{EachPlace};
ghost use Rattle.block_cache.specs.{CanFill, kinds_of};
ghost use Rattle.loop_keys.specs.{ArePlain, job_graph, key, IsPlainLoop};
ghost use Rattle.block_passes.specs.{CanSelectInTurn, IsFilteredTo, IsKnown, IsNextSelected, IsPlanOfTurn, IsReadyInTurn, IsSelectedInTurn, IsSpentInTurn, IsTurn, KeepsRoom, KeptPlaces as KeptView, Leaves, turn_job};

use crate::plan::Step;
use crate::turn::{KeptPlaces, NextStep, SiteFilter, Turn, Work};
use block_cache::block::{Block, Wanted};
use block_cache::passing::pass_filter;
use expr_eval::Steps;
use loop_keys::reading::Reading;
use rdf_values::Memory;
use std::sync::ledger::Ledger;

/// Selects those of the places of a selection that pass a filter, below the first that faults in it.
#[tactic(auto, using(crate::proofs::Selecting::selected))]
pub(crate) fn filter_places<L: Ledger>(
    at: &Turn<'_>,
    work: &mut Work,
    from: &KeptPlaces,
    to: &mut KeptPlaces,
    filter: SiteFilter,
    steps: &mut Steps<L>,
) -> Result<(), Memory>
    requires site { filter.site < length (graph_sites (job_graph (turn_job at.now))) }
    requires known { IsKnown at.now work.old }
    requires can { CanFill (turn_job at.now) at.now.first filter.under at.now.count (kinds_of work.old.lanes.items) at.now.cells.now (length work.old.scratch.items) (length work.old.levels.items) filter.site }
    requires truth { slice_get (kinds_of work.old.lanes.items) (key (job_graph (turn_job at.now)) filter.site filter.under) ≡ Some kind.Bool }
    requires inside { EachPlace from.now.places (λ p. p < work.old.found.limit) }
    ensures spent { IsSpentInTurn at.now filter.under filter.site from.now.places work.old work.new steps.old steps.new }
    ensures filtered { OnOk result (IsFilteredTo (turn_job at.now) at.now.first at.now.count filter.under filter.site at.now.pass from.now.places to.new work.new.lanes.items work.old.found work.new.found) }
    ensures room { KeepsRoom work.old work.new }
    ensures plain { (used : ℕ → Bool) → ArePlain (turn_job at.now) used → used filter.site ≡ true → OnErr result ⊥ }
{
    to.places.copy_from(&from.places);
    let _rising = to.places.as_slice();
    let _few = to.places.len();
    let reading = Reading {
        job: at.job,
        row: at.row(filter.under),
        entry: at.first,
        under: filter.under,
    };
    let block = Block {
        at: &reading,
        count: at.count as usize,
        cells: at.cells,
    };
    let wanted = Wanted {
        block: &block,
        site: filter.site,
    };
    let fault = pass_filter(
        &wanted,
        &mut work.lanes,
        &mut to.places,
        &mut work.levels,
        &mut work.scratch,
        steps,
    )?;
    work.found.note(at.first, at.pass, fault);
    to.limit = Some(work.found.limit);
    Ok(())
}

/// Selects the places of a step with one more filter than the step of the parent, which is selected.
pub(crate) fn next_places<L: Ledger>(
    at: &Turn<'_>,
    work: &mut Work,
    above: &[KeptPlaces],
    own: &mut [KeptPlaces],
    next: NextStep,
    steps: &mut Steps<L>,
) -> Result<(), Memory>
    requires turn { IsTurn at.now }
    requires can { CanSelectInTurn at.now work.old }
    requires step { slice_get at.now.plan.now.steps next.step ≡ Some (Step.Filter next.parent next.filter.site next.filter.under) }
    requires above { length above.now ≡ next.step }
    requires own { 0 < length own.old }
    requires ready { (p : IsPlanOfTurn at.now) → IsReadyInTurn at.now p.chains work.old.found.limit work.old.lanes.items (above.now ++ own.old) }
    requires made { (s : KeptView) → slice_get (above.now ++ own.old) next.parent ≡ Some s → s.limit ≡ Some work.old.found.limit }
    ensures leaves { Leaves at.now work.old work.new steps.old steps.new }
    ensures selected { (p : IsPlanOfTurn at.now)
        → OnOk result (IsNextSelected (turn_job at.now) at.now.first at.now.count p.chains at.now.pass next.step next.parent next.filter.site next.filter.under work.new.lanes.items (above.now ++ own.old) (above.now ++ own.new) work.old.found work.new.found) }
    ensures plain { IsPlainLoop (turn_job at.now) → OnErr result ⊥ }
{
    filter_places(
        at,
        work,
        &above[next.parent as usize],
        &mut own[0],
        next.filter,
        steps,
    )
}

/// Selects the places of a step below the limit, and first those of the steps above it, unless they are selected.
pub(crate) fn select_step<L: Ledger>(
    at: &Turn<'_>,
    work: &mut Work,
    kept: &mut [KeptPlaces],
    step: u32,
    steps: &mut Steps<L>,
) -> Result<(), Memory>
    requires turn { IsTurn at.now }
    requires can { CanSelectInTurn at.now work.old }
    requires step { step < length at.now.plan.now.steps }
    requires ready { (p : IsPlanOfTurn at.now) → IsReadyInTurn at.now p.chains work.old.found.limit work.old.lanes.items kept.old }
    ensures leaves { Leaves at.now work.old work.new steps.old steps.new }
    ensures selected { (p : IsPlanOfTurn at.now)
        → OnOk result (IsSelectedInTurn at.now p.chains step work.new.lanes.items kept.old kept.new work.old.found work.new.found) }
    ensures plain { IsPlainLoop (turn_job at.now) → OnErr result ⊥ }
{
    let limit = work.found.limit;
    if kept[step as usize].narrow(limit) {
        return Ok(());
    }
    match at.plan.step(step) {
        Step::Block => {
            kept[step as usize].select_first(limit);
            Ok(())
        }
        Step::Filter {
            parent,
            site,
            under,
        } => {
            select_step(at, work, kept, parent, steps)?;
            let (above, own) = kept.split_at_mut(step as usize);
            let next = NextStep {
                step,
                parent,
                filter: SiteFilter { site, under },
            };
            next_places(at, work, above, own, next, steps)
        }
    }
}

/// Selects the places of a step below the limit likewise: nearly always they are selected, as those of a pass before.
#[tactic(auto, using(crate::proofs::Selecting::kept_inside))]
pub(crate) fn select_again<L: Ledger>(
    at: &Turn<'_>,
    work: &mut Work,
    kept: &mut [KeptPlaces],
    step: u32,
    steps: &mut Steps<L>,
) -> Result<(), Memory>
    requires turn { IsTurn at.now }
    requires can { CanSelectInTurn at.now work.old }
    requires step { step < length at.now.plan.now.steps }
    requires ready { (p : IsPlanOfTurn at.now) → IsReadyInTurn at.now p.chains work.old.found.limit work.old.lanes.items kept.old }
    ensures leaves { Leaves at.now work.old work.new steps.old steps.new }
    ensures selected { (p : IsPlanOfTurn at.now)
        → OnOk result (IsSelectedInTurn at.now p.chains step work.new.lanes.items kept.old kept.new work.old.found work.new.found) }
    ensures plain { IsPlainLoop (turn_job at.now) → OnErr result ⊥ }
{
    if kept[step as usize].is_made(work.found.limit) {
        return Ok(());
    }
    select_step(at, work, kept, step, steps)
}
