// The accumulator of a watched result over one cluster.
ghost use Rattle.std.specs.Prelude.{◌≡◌, ◌<◌, ◌≤◌, ◌+◌, List, None, IfOk, length};
ghost use Rattle.rdf_values.specs.{feed_fault};
ghost use Rattle.actions.specs.{EachPlace, Fed, HasFed, HasValues, places_of, SuitsAt, values_at};
ghost use Rattle.loop_pieces.specs.{IsOfKind, watch_filled};
ghost use Rattle.cluster_tally.specs.Blocks.{TakesIn};
ghost use Rattle.cluster_tally.specs.Feedings.{fresh_acc};
ghost use Rattle.cluster_tally.specs.Tallies.{CanWatch};

use actions::{Acc, Batch, Filled};
use loop_pieces::WatchPiece;
use rdf_values::{ActionKind, Memory};
use std::alloc::Global;
use std::marker::Model;

/// An accumulator that begins anew with each cluster: of a Count, a Sum, a Min or a Max.
#[derive(Drop)]
pub struct Watcher {
    kind: ActionKind,
    acc: Acc,
}

impl Model for Watcher {
    ghost use Rattle.std.specs.Prelude.{◌≡◌};
    ghost use Rattle.actions.specs.{Accumulator};
    ghost use Rattle.cluster_tally.specs.Tallies.{IsWatcher};

    ghost Value = { Accumulator };

    ghost view = { λ w. w.acc };

    ghost invariant = { λ w. IsWatcher w.kind w.acc };
}

// What an accumulator of the kind holds.
fn piece_of(kind: &ActionKind, acc: &Acc) -> WatchPiece
    requires watch { CanWatch kind.now }
    requires kind { acc.now.kind ≡ kind.now }
    requires fed { (fed : List Fed) × HasFed acc.now fed }
    ensures kind { IsOfKind kind.now result }
    ensures filled { watch_filled result ≡ acc.now.filled }
{
    match (kind, acc.filled()) {
        (ActionKind::Count, Filled::Count(entries)) => WatchPiece::Count(entries),
        (ActionKind::Sum(_), Filled::Sum(sum)) => WatchPiece::Sum(sum),
        (ActionKind::Min(_), Filled::Extreme(least)) => WatchPiece::Least(least),
        (ActionKind::Max(_), Filled::Extreme(greatest)) => WatchPiece::Greatest(greatest),
        _ => unreachable!(),
    }
}

impl Watcher {
    /// A watcher of the action, to which nothing was fed.
    pub fn new(alloc: Global, kind: &ActionKind) -> Result<Watcher, Memory>
        requires { CanWatch kind.now }
        ensures { IfOk result (λ watcher. watcher ≡ fresh_acc kind.now) }
    {
        Ok(Watcher {
            kind: kind.copy()?,
            acc: Acc::new(alloc, kind)?,
        })
    }

    /// Takes in what the places of a block feed, of one cluster; clusters don't fall.
    #[tactic(auto, using(crate::proofs::BlockFeeds::none_kept))]
    pub fn feed_batch(&mut self, cluster: u32, batch: &Batch<'_>)
        requires there { EachPlace batch.now.places (HasValues batch.now.sources) }
        requires suits { EachPlace batch.now.places (SuitsAt self.old.kind batch.now.sources) }
        requires no_fault { EachPlace batch.now.places (λ p. feed_fault self.old.kind (values_at batch.now.sources p) ≡ None) }
        requires rising { self.old.last ≤ cluster }
        requires room { self.old.entries + length (places_of batch.now.places) ≤ 1000000 }
        ensures { TakesIn cluster batch.now self.old self.new }
    {
        match self.acc.feed_batch(cluster, batch) {
            Ok(()) => {}
            Err(Memory) => unreachable!(),
        }
    }

    /// Hands out what it holds, and begins anew.
    pub fn close(&mut self, alloc: Global) -> Result<WatchPiece, Memory>
        requires { (fed : List Fed) × HasFed self.old fed }
        ensures kind { IfOk result (λ piece. IsOfKind self.old.kind piece) }
        ensures filled { IfOk result (λ piece. watch_filled piece ≡ self.old.filled) }
        ensures fresh { IfOk result (λ piece. self.new ≡ fresh_acc self.old.kind) }
    {
        let piece = piece_of(&self.kind, &self.acc);
        self.acc = Acc::new(alloc, &self.kind)?;
        Ok(piece)
    }
}
