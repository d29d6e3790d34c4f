// Tallies.
ghost use Rattle.std.specs.Prelude.{◌≡◌, ◌<◌, ◌+◌, ◌++◌, ◌∷◌, [], ℕ, List, IfOk, OnErr, OnOk, Some, length, map, replicate, slice_get};
ghost use Rattle.rdf_values.specs.{ActionKind};
ghost use Rattle.rdf_model.specs.declared.loop_facts.LoopFacts.{LoopFacts};
ghost use Rattle.actions.specs.{Accumulator, EachPlace, Fed, HasEdges, HasFed, HasValues, IsTake};
ghost use Rattle.loop_pieces.specs.{HaveTrails, nothing, StandsFor};
ghost use Rattle.cluster_tally.specs.Blocks.{BlockStage, CanFeedBatch, CanNoteCounts, CanTakeIn, HoldsIn, TookIn, TookInIfThere, filter_done, pass_done};
ghost use Rattle.cluster_tally.specs.Feedings.{IsAtEnd, IsFresh, noted_all, noted_at, renewed, times_there};
ghost use Rattle.cluster_tally.specs.Tallies.{Stage, at_begin, CanWatch, Holds, places_there};

use crate::watcher::Watcher;
use actions::{Acc, Batch};
use loop_pieces::{Counts, Flow, LoopPiece, WatchPiece};
use merge_core::{Noted, Trail};
use rdf_values::{ActionKind, ListOf, Memory};
use std::alloc::Global;
use std::marker::Model;

/// The accumulators of the action passes, for each that is watched one of the current cluster alone, the counts of the named
/// filters, and the trails.
#[derive(Drop)]
pub struct Tally {
    alloc: Global,
    accs: Vec<Acc>,
    watched: Vec<Option<Watcher>>,
    flow: Flow,
    trails: Vec<Trail<WatchPiece>>,
}

impl Model for Tally {
    ghost use Rattle.std.specs.Prelude.{◌≡◌};
    ghost use Rattle.cluster_tally.specs.Tallies.{TallyView};

    ghost Value = { TallyView };

    ghost view = { λ t. record { accs = t.accs.items; watched = t.watched.items; flow = t.flow; trails = t.trails.items } };
}

// Feeds a batch to the accumulator of a pass.
#[tactic(auto, using(std::proofs::lemmas::Option::slice_get_read, crate::proofs::BlockFeeds::took, std::proofs::lemmas::Option::same_Some))]
fn feed_acc_batch(
    accs: &mut [Acc],
    pass: u32,
    cluster: u32,
    batch: &Batch<'_>,
) -> Result<(), Memory>
    requires within { pass < length accs.old }
    requires there { EachPlace batch.now.places (HasValues batch.now.sources) }
    requires can { (acc : Accumulator) → slice_get accs.old pass ≡ Some acc → CanTakeIn cluster batch.now acc }
    ensures fed { OnOk result (TookIn pass cluster batch.now accs.old accs.new) }
    ensures memory { (acc : Accumulator) → slice_get accs.old pass ≡ Some acc → OnErr result (IsTake acc.kind) }
{
    let fed = &mut accs[pass as usize];
    fed.feed_batch(cluster, batch)
}

// Feeds a batch to the accumulator of a pass that is watched, if it is.
#[tactic(auto, using(std::proofs::lemmas::Option::slice_get_read, std::proofs::lemmas::Option::same_Some))]
fn feed_watched_batch(watched: &mut [Option<Watcher>], pass: u32, cluster: u32, batch: &Batch<'_>)
    requires within { pass < length watched.old }
    requires there { EachPlace batch.now.places (HasValues batch.now.sources) }
    requires can { (acc : Accumulator) → slice_get watched.old pass ≡ Some (Some acc) → CanTakeIn cluster batch.now acc }
    ensures { TookInIfThere pass cluster batch.now watched.old watched.new }
{
    if let Some(watcher) = &mut watched[pass as usize] {
        watcher.feed_batch(cluster, batch);
    }
}

// Notes what a watcher holds, if it is there, and begins it anew; tells the number of the next trail.
fn close_one(
    alloc: Global,
    cluster: u32,
    watcher: &mut Option<Watcher>,
    trails: &mut [Trail<WatchPiece>],
    trail: usize,
) -> Result<usize, Memory>
    requires { (acc : Accumulator) → watcher.old ≡ Some acc → (trail < length trails.old) × (fed : List Fed) × HasFed acc fed }
    ensures watcher { OnOk result (watcher.new ≡ renewed watcher.old) }
    ensures trails { OnOk result (trails.new ≡ noted_at cluster watcher.old trails.old trail) }
    ensures next { IfOk result (λ next. next ≡ trail + times_there watcher.old) }
    ensures memory { OnErr result (0 < length trails.old) }
{
    match watcher {
        None => Ok(trail),
        Some(watcher) => {
            let piece = watcher.close(alloc)?;
            trails[trail].push(Noted { cluster, piece })?;
            Ok(trail + 1)
        }
    }
}

// Notes what each watcher holds in its trail, and begins it anew.
fn close_all(
    alloc: Global,
    cluster: u32,
    watched: &mut [Option<Watcher>],
    trails: &mut [Trail<WatchPiece>],
) -> Result<(), Memory>
    requires trails { length trails.old ≡ length (places_there 0 watched.old) }
    requires fed { (i : ℕ) (acc : Accumulator) → slice_get watched.old i ≡ Some (Some acc) → (fed : List Fed) × HasFed acc fed }
    ensures watched { OnOk result (watched.new ≡ map renewed watched.old) }
    ensures trails { OnOk result (trails.new ≡ noted_all cluster watched.old trails.old) }
    ensures memory { OnErr result (0 < length trails.old) }
{
    let mut trail = 0;
    for i in 0..watched.len() {
        trail = close_one(alloc, cluster, &mut watched[i], trails, trail)?;
    }
    Ok(())
}

impl Tally {
    /// A tally of no action pass, to which nothing was told of so many named filters.
    pub fn new(alloc: Global, filters: u32) -> Result<Tally, Memory>
        ensures fresh { IfOk result (λ tally. IsFresh [] [] tally) }
        ensures flow { IfOk result (λ tally. tally.flow ≡ replicate filters nothing) }
    {
        Ok(Tally {
            alloc,
            accs: Vec::new(alloc),
            watched: Vec::new(alloc),
            flow: Flow::new(alloc, filters)?,
            trails: Vec::new(alloc),
        })
    }

    /// Adds an action pass that isn't watched, behind those that were added.
    pub fn add_pass(&mut self, kind: &ActionKind) -> Result<(), Memory>
        requires { HasEdges kind.now }
        ensures fresh { (kinds : List ActionKind) (watched : List ℕ) → IsFresh kinds watched self.old → OnOk result (IsFresh (kinds ++ kind.now ∷ []) watched self.new) }
        ensures flow { self.new.flow ≡ self.old.flow }
    {
        self.watched.push(None)?;
        self.accs.push(Acc::new(self.alloc, kind)?)?;
        Ok(())
    }

    /// Adds a watched action pass, with an empty trail, behind those that were added.
    pub fn add_watched(&mut self, kind: &ActionKind) -> Result<(), Memory>
        requires edges { HasEdges kind.now }
        requires watched { CanWatch kind.now }
        ensures fresh { (kinds : List ActionKind) (watched : List ℕ) → IsFresh kinds watched self.old
            → OnOk result (IsFresh (kinds ++ kind.now ∷ []) (watched ++ length kinds ∷ []) self.new) }
        ensures flow { self.new.flow ≡ self.old.flow }
    {
        self.trails.push(ListOf::new(self.alloc))?;
        self.watched.push(Some(Watcher::new(self.alloc, kind)?))?;
        self.accs.push(Acc::new(self.alloc, kind)?)?;
        Ok(())
    }

    /// Takes in what a block feeds to the next action pass.
    pub fn feed_batch(&mut self, pass: u32, cluster: u32, batch: &Batch<'_>) -> Result<(), Memory>
        requires { (f : LoopFacts) × (watched : List ℕ) × (s : BlockStage) × CanFeedBatch f watched s self.old pass cluster batch.now }
        ensures holds { (f : LoopFacts) (watched : List ℕ) (s : BlockStage) → CanFeedBatch f watched s self.old pass cluster batch.now
            → OnOk result (HoldsIn f watched (pass_done s) self.new) }
        ensures memory { (f : LoopFacts) (watched : List ℕ) (s : BlockStage) → (can : CanFeedBatch f watched s self.old pass cluster batch.now)
            → OnErr result (IsTake can.kind) }
    {
        feed_watched_batch(self.watched.as_mut_slice(), pass, cluster, batch);
        feed_acc_batch(self.accs.as_mut_slice(), pass, cluster, batch)
    }

    /// Takes in how many entries of a block reach the next named filter, and how many pass it.
    #[tactic(auto, using(crate::proofs::BlockFeeds::filter_within, crate::proofs::BlockFeeds::are_counts, crate::proofs::BlockFeeds::has_room))]
    pub fn note_counts(&mut self, filter: u32, counts: Counts)
        requires { (f : LoopFacts) × (watched : List ℕ) × (s : BlockStage) × CanNoteCounts f watched s self.old filter counts }
        ensures { (f : LoopFacts) (watched : List ℕ) (s : BlockStage) → CanNoteCounts f watched s self.old filter counts → HoldsIn f watched (filter_done s) self.new }
    {
        self.flow.note_counts(filter, counts);
    }

    /// Notes what the cluster that ends gives to each watched result, and begins those anew.
    #[tactic(auto, using(std::proofs::lemmas::List::with_items_is, crate::proofs::Closing::on_both_ok, crate::proofs::Closing::holds_closed))]
    pub fn close(&mut self, cluster: u32) -> Result<(), Memory>
        requires { (f : LoopFacts) × (watched : List ℕ) × (s : Stage) × Holds f watched s self.old × IsAtEnd f s cluster }
        ensures holds { (f : LoopFacts) (watched : List ℕ) (s : Stage) (next : ℕ) → Holds f watched s self.old → IsAtEnd f s cluster → cluster < next
            → OnOk result (Holds f watched (at_begin (s.done ++ cluster ∷ []) next) self.new) }
        ensures memory { OnErr result (0 < length self.old.trails) }
    {
        close_all(
            self.alloc,
            cluster,
            self.watched.as_mut_slice(),
            self.trails.as_mut_slice(),
        )
    }

    /// What the clusters that are done come to.
    pub fn into_piece(self) -> LoopPiece
        ensures stands { (f : LoopFacts) (watched done : List ℕ) (cluster : ℕ) → Holds f watched (at_begin done cluster) self → StandsFor f done result }
        ensures trails { (f : LoopFacts) (watched done : List ℕ) (cluster : ℕ) → Holds f watched (at_begin done cluster) self
            → HaveTrails f watched done result.trails.items }
    {
        LoopPiece {
            accs: self.accs,
            flow: self.flow,
            trails: self.trails,
        }
    }
}
