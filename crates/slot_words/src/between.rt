// Results over the clusters that were noted next.
ghost use Rattle.std.specs.Prelude.{◌≡◌, ◌≤◌, ◌<◌, ◌++◌, ℕ, IfOk, IsPermutation, length, map};
ghost use Rattle.std.specs.List.{All};
ghost use Rattle.std.specs.List.Sorted.{IsStrictlyIncreasing};
ghost use Rattle.rdf_values.specs.{times};
ghost use Rattle.loop_pieces.specs.{WatchStandsFor};
ghost use Rattle.slot_words.specs.{added, added_in, AreAlone, cluster_in, HaveNumbers, piece_in, trails_at};

use crate::book::Orders;
use loop_pieces::{LoopPiece, WatchFacts, WatchPiece};
use merge_core::{Noted, merge_all};
use rdf_values::{ListOf, Memory};
use std::alloc::Global;

/// What some clusters came to, which rise.
#[derive(Drop)]
pub struct PartialPiece {
    pub clusters: ListOf<u32>,
    pub piece: WatchPiece,
}

// Appends the clusters and the pieces of one trail's entries whose number is less than a bound, but not less than a lower one.
#[tactic(auto, using(crate::proofs::Steps::entry_appended))]
fn choose_between<P: Copy>(
    clusters: &mut Vec<u32>,
    pieces: &mut Vec<P>,
    numbers: &[u64],
    low: u64,
    below: u64,
    trail: &[Noted<P>],
) -> Result<(), Memory>
    requires same { length numbers.now ≡ length trail.now }
    requires rises { IsStrictlyIncreasing numbers.now }
    requires bounds { low ≤ below }
    ensures clusters { IfOk result (λ _. clusters.new.items ≡ clusters.old.items ++ map cluster_in (added_in numbers.now low below trail.now)) }
    ensures pieces { IfOk result (λ _. pieces.new.items ≡ pieces.old.items ++ map piece_in (added_in numbers.now low below trail.now)) }
{
    let start = numbers.partition_point(|n| *n < low);
    let end = numbers.partition_point(|n| *n < below);
    for noted in &trail[start..end] {
        clusters.push(noted.cluster)?;
        pieces.push(noted.piece)?;
    }
    Ok(())
}

/// The clusters whose number is less than a bound, but not less than a lower one, rising, and the join of their pieces in the trails of
/// a watched result. The number of a trail's entry stands at the same place of its slot's list, and rises: no other entries are looked at.
#[tactic(auto, using(crate::proofs::Steps::trail_there, crate::proofs::Steps::trail_added))]
pub fn partial_between(
    alloc: Global,
    orders: &Orders,
    low: u64,
    below: u64,
    pieces: &[LoopPiece],
    watched: u32,
) -> Result<PartialPiece, Memory>
    requires there { All (λ p. watched < length p.trails.items) pieces.now }
    requires numbers { HaveNumbers orders.now.slots (trails_at watched pieces.now) }
    requires rise { All IsStrictlyIncreasing orders.now.slots }
    requires bounds { low ≤ below }
    requires some { 0 < length (added orders.now.slots low below (trails_at watched pieces.now)) }
    requires apart { (job : WatchFacts) × AreAlone (WatchStandsFor job) (added orders.now.slots low below (trails_at watched pieces.now)) × ((x : ℕ) → times x (map cluster_in (added orders.now.slots low below (trails_at watched pieces.now))) ≤ 1) }
    ensures named { IfOk result (λ p. IsStrictlyIncreasing p.clusters × IsPermutation (map cluster_in (added orders.now.slots low below (trails_at watched pieces.now))) p.clusters) }
    ensures stands { (job : WatchFacts) → AreAlone (WatchStandsFor job) (added orders.now.slots low below (trails_at watched pieces.now)) → IfOk result (λ p. WatchStandsFor job p.clusters p.piece) }
{
    let mut clusters = Vec::new(alloc);
    let mut parts = Vec::new(alloc);
    for i in 0..orders.slots.len() {
        choose_between(
            &mut clusters,
            &mut parts,
            orders.slots.at(i).as_slice(),
            low,
            below,
            pieces[i].trails[watched as usize].as_slice(),
        )?;
    }
    clusters.sort_unstable();
    let piece = merge_all(ListOf::from_vec(parts))?;
    Ok(PartialPiece {
        clusters: ListOf::from_vec(clusters),
        piece,
    })
}
