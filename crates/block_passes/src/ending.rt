// The end of a block: what its search comes to, and what the tally takes in of it.
ghost use Rattle.std.specs.Prelude.{◌≡◌, ◌<◌, List, ℕ, length, Some, ◌≢◌, All, Err, OnErr, OnOk, None};
ghost use Rattle.graph_numbers.specs.{graph_filters};
ghost use Rattle.cluster_tally.specs.{block_reaches, BlockStage, counted, HoldsIn, Holds, Stage};
ghost use Rattle.loop_keys.specs.{facts_in, job_graph, IsNoTake, passes_in, IsPlainLoop};
ghost use Rattle.block_passes.specs.{AreCountable, at_filter, IsAmidTurn, IsPlanOfTurn, IsTurn, turn_job, after_block, CanSelectInTurn, CanServeAllInTurn, CanServeAllWith, entries_from, IsBefore, IsBlockTried, IsClearInTurn, IsReadyInTurn, Leaves};
ghost use Rattle.rdf_model.specs.{kinds_in};
ghost use Rattle.block_cache.specs.{AreUnknown};

use crate::feed::feed_passes;
use crate::passes::try_passes;
use crate::turn::{BlockStop, KeptPlaces, Turn, Work};
use block_cache::Lane;
use cluster_tally::Tally;
use expr_eval::Steps;
use loop_pieces::Counts;
use rdf_values::Memory;
use std::sync::ledger::Ledger;

/// How many entries of the block reach a named filter, and how many pass it: the sizes of two selections.
fn counts_of(at: &Turn<'_>, kept: &[KeptPlaces], filter: u32) -> Counts
    requires turn { IsTurn at.now }
    requires filter { filter < length (graph_filters (job_graph (turn_job at.now))) }
    requires countable { (p : IsPlanOfTurn at.now) → AreCountable (turn_job at.now) at.now.first at.now.count p.chains at.now.plan.now kept.now }
    ensures { (s : BlockStage) → IsAmidTurn at.now s → result ≡ counted (block_reaches (facts_in (turn_job at.now)) s filter) }
{
    match at.plan.named(filter) {
        None => Counts { all: 0, pass: 0 },
        Some(named) => Counts {
            all: kept[named.above as usize].places.len() as u64,
            pass: kept[named.own as usize].places.len() as u64,
        },
    }
}

/// Takes in what a block without a fault does at the named filters.
pub(crate) fn note_filters(at: &Turn<'_>, kept: &[KeptPlaces], tally: &mut Tally)
    requires turn { IsTurn at.now }
    requires countable { (p : IsPlanOfTurn at.now) → AreCountable (turn_job at.now) at.now.first at.now.count p.chains at.now.plan.now kept.now }
    requires begin { (watched : List ℕ) × (s : BlockStage) × IsAmidTurn at.now s × (s.filters ≡ 0) × HoldsIn (facts_in (turn_job at.now)) watched s tally.old }
    ensures { (watched : List ℕ) (s : BlockStage) → IsAmidTurn at.now s → s.filters ≡ 0 → HoldsIn (facts_in (turn_job at.now)) watched s tally.old
        → HoldsIn (facts_in (turn_job at.now)) watched (at_filter s (length (graph_filters (job_graph (turn_job at.now))))) tally.new }
{
    for filter in 0..at.job.graph.filters() {
        let counts = counts_of(at, kept, filter);
        tally.note_counts(filter, counts);
    }
}

/// Takes a block in, in which no pass faults: all action passes are fed, and all named filters noted.
fn take_in(
    at: &Turn<'_>,
    lanes: &[Lane],
    kept: &[KeptPlaces],
    tally: &mut Tally,
    cluster: u32,
) -> Result<(), Memory>
    requires turn { IsTurn at.now }
    requires serve { (scratch levels : ℕ) × CanServeAllWith at.now lanes.now scratch levels }
    requires clear { (p : IsPlanOfTurn at.now) → IsClearInTurn at.now p.chains lanes.now kept.now }
    requires before { (watched : List ℕ) × (s : Stage) × IsBefore (turn_job at.now) watched s cluster (entries_from at.now.first at.now.count) tally.old }
    ensures holds { (watched : List ℕ) (s : Stage) → IsBefore (turn_job at.now) watched s cluster (entries_from at.now.first at.now.count) tally.old
        → OnOk result (Holds (facts_in (turn_job at.now)) watched (after_block s (entries_from at.now.first at.now.count)) tally.new) }
    ensures plain { IsPlainLoop (turn_job at.now) → All IsNoTake (kinds_in (passes_in (turn_job at.now))) → OnErr result ⊥ }
{
    feed_passes(at, lanes, kept, tally, cluster)?;
    note_filters(at, kept, tally);
    Ok(())
}

/// Tries all passes over a block that was begun, the next one of its cluster, and takes it in where none faults.
pub(crate) fn try_begun<L: Ledger>(
    at: &Turn<'_>,
    work: &mut Work,
    kept: &mut [KeptPlaces],
    tally: &mut Tally,
    cluster: u32,
    steps: &mut Steps<L>,
) -> Result<(), BlockStop>
    requires turn { IsTurn at.now }
    requires can { CanSelectInTurn at.now work.old }
    requires serve { CanServeAllInTurn at.now work.old }
    requires begun { work.old.found ≡ record { limit = at.now.count; best = None } }
    requires ready { (p : IsPlanOfTurn at.now) → IsReadyInTurn at.now p.chains at.now.count work.old.lanes.items kept.old }
    requires unknown { AreUnknown at.now.count work.old.lanes.items }
    requires before { (watched : List ℕ) × (s : Stage) × IsBefore (turn_job at.now) watched s cluster (entries_from at.now.first at.now.count) tally.old }
    ensures tried { IsBlockTried (turn_job at.now) cluster (entries_from at.now.first at.now.count) tally.old tally.new steps.old steps.new result }
    ensures leaves { Leaves at.now work.old work.new steps.old steps.new }
    ensures kept { length kept.new ≡ length kept.old }
    ensures plain { IsPlainLoop (turn_job at.now) → All IsNoTake (kinds_in (passes_in (turn_job at.now))) → result ≢ Err BlockStop.Memory }
{
    match try_passes(at, work, kept, steps) {
        Ok(()) => {}
        Err(Memory) => return Err(BlockStop::Memory),
    }
    if let Some(fault) = work.found.best {
        return Err(BlockStop::Fault(fault));
    }
    match take_in(at, &work.lanes, kept, tally, cluster) {
        Ok(()) => Ok(()),
        Err(Memory) => Err(BlockStop::Memory),
    }
}
