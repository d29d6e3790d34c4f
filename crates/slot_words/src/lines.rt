// The partial results of watched results.
ghost use Rattle.std.specs.Prelude.{◌≡◌, ◌+◌, ◌*◌, ◌<◌, ◌≤◌, ℕ, All, List, IfOk, length};
ghost use Rattle.rdf_values.specs.{stride};
ghost use Rattle.rdf_model.specs.declared.loop_facts.LoopFacts.{LoopFacts};
ghost use Rattle.loop_pieces.specs.{ArePartialLines, IsPartialLine};
ghost use Rattle.slot_words.specs.{AreLinesSoFar, AreNoted, chain_of, HaveAllTrails, HavePartialsOver, noted_sets, set_before, trails_at, WatchedPlace};

use crate::between::partial_between;
use crate::book::Orders;
use crate::runs::runs_with;
use loop_pieces::{LoopPiece, PartialLine};
use merge_core::Piece;
use rdf_values::{ListOf, Memory};
use std::alloc::Global;

// After how many clusters the next partial result comes: after k, and after more where there would be over 1000 of them.
fn stride(clusters: u32, k: u32) -> u32
    ensures { result ≡ stride clusters k }
{
    k.max(clusters.div_ceil(1000))
}

// The line after those so far: it has the clusters of the last one, where there is one, and those with the next `step` numbers, which alone are gone through.
fn next_line(
    alloc: Global,
    orders: &Orders,
    pieces: &[LoopPiece],
    watched: u32,
    lines: &[PartialLine],
    step: u32,
) -> Result<PartialLine, Memory>
    requires step { 0 < step }
    requires there { All (λ p. watched < length p.trails.items) pieces.now }
    requires noted { (clusters : ℕ) × (w : WatchedPlace orders.now.slots clusters (trails_at watched pieces.now)) × AreLinesSoFar orders.now.slots clusters w.facts w.place w.dones step lines.now }
    ensures { (clusters : ℕ) (w : WatchedPlace orders.now.slots clusters (trails_at watched pieces.now)) → AreLinesSoFar orders.now.slots clusters w.facts w.place w.dones step lines.now
        → IfOk result (IsPartialLine w.facts w.place (set_before orders.now.slots w.dones clusters ((length lines.now + 1) * step))) }
{
    let count = lines.len();
    let low = count as u32 * step;
    let below = low + step;
    let more = partial_between(alloc, orders, low as u64, below as u64, pieces, watched)?;
    if count == 0 {
        let runs = runs_with(alloc, &[], more.clusters.as_slice())?;
        let value = more.piece;
        return Ok(PartialLine { runs, value });
    }
    let before = &lines[count - 1];
    let mut value = before.value;
    value.join(more.piece)?;
    let runs = runs_with(alloc, before.runs.as_slice(), more.clusters.as_slice())?;
    Ok(PartialLine { runs, value })
}

// The partial results of one watched result, after every so many clusters.
fn lines_of(
    alloc: Global,
    orders: &Orders,
    pieces: &[LoopPiece],
    watched: u32,
    clusters: u32,
    step: u32,
) -> Result<ListOf<PartialLine>, Memory>
    requires few { clusters ≤ 1000000 }
    requires step { 0 < step }
    requires there { All (λ p. watched < length p.trails.items) pieces.now }
    requires noted { WatchedPlace orders.now.slots clusters (trails_at watched pieces.now) }
    ensures { (w : WatchedPlace orders.now.slots clusters (trails_at watched pieces.now)) → IfOk result (ArePartialLines w.facts w.place (chain_of orders.now.slots w.dones clusters step)) }
{
    let mut lines = ListOf::new(alloc);
    for _ in 0..clusters / step {
        let line = next_line(alloc, orders, pieces, watched, lines.as_slice(), step)?;
        lines.push(line)?;
    }
    Ok(lines)
}

/// The partial results of each watched result, whose trails stand in the pieces of the slots.
/// They are over the chain of sets that the slots' orders tell.
pub fn partial_lines(
    alloc: Global,
    orders: &Orders,
    pieces: &[LoopPiece],
    watched: u32,
    clusters: u32,
    watch: u32,
) -> Result<ListOf<ListOf<PartialLine>>, Memory>
    requires few { clusters ≤ 1000000 }
    requires watch { 0 < watch }
    requires noted { (facts : LoopFacts) × (places : List ℕ) × (dones : List (List ℕ)) × AreNoted orders.now.slots dones clusters × HaveAllTrails facts places dones pieces.now × (length places ≡ watched) }
    ensures { (facts : LoopFacts) (places : List ℕ) (dones : List (List ℕ)) → AreNoted orders.now.slots dones clusters → HaveAllTrails facts places dones pieces.now → length places ≡ watched → length facts.ranges ≡ clusters
        → IfOk result (HavePartialsOver facts places watch (noted_sets orders.now.slots dones clusters watch)) }
{
    let step = stride(clusters, watch);
    let mut all = ListOf::new(alloc);
    for w in 0..watched {
        all.push(lines_of(alloc, orders, pieces, w, clusters, step)?)?;
    }
    Ok(all)
}
