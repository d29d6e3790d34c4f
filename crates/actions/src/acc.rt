// Accumulators, and what they made of their items.
ghost use Rattle.std.specs.Prelude.{◌≡◌};

use crate::batch::Batch;
use crate::items::Items;
use crate::state::State;
use crate::taken::Taken;
use histograms::{Hist1, Hist2};
use rdf_values::{ActionKind, EntryFault, Memory};
use std::alloc::Global;
use std::marker::Model;

/// Why an entry could not be fed. `Memory` comes from a Take alone.
#[derive(Clone, Copy, Debug, PartialEq, Eq)]
pub enum FeedStop {
    Fault(EntryFault),
    Memory,
}

/// What an action made of the items that entries fed, those of lower clusters first.
#[derive(Drop)]
pub struct Acc {
    alloc: Global,
    entries: u32,
    last: u32,
    state: State,
}

impl Model for Acc {
    ghost use Rattle.actions.specs.Accumulators.{kept, kind_of, made, Accumulator, KeepsCount};

    ghost Value = { Accumulator };

    ghost view = { λ a. record { kind = kind_of a.state; entries = a.entries; last = a.last; filled = made a.state; kept = kept a.state } };

    ghost invariant = { λ a. KeepsCount a.entries a.state };
}

impl Acc {
    ghost use Rattle.std.specs.Prelude.{◌≡◌, ◌↔◌, ◌≤◌, ◌<◌, ◌+◌, ◌++◌, [], List, None, Some, Err, IfOk, OnErr, OnOk, length, max};
    ghost use Rattle.rdf_values.specs.{EntryFault, feed_fault, fold_items, spread};
    ghost use Rattle.actions.specs.Accumulators.{HasFed, HasEdges, IsTake, kept_of};
    ghost use Rattle.actions.specs.Batches.{EachPlace, HasValues, SuitsAt, batch_items, places_of, values_at};
    ghost use Rattle.actions.specs.Parts.{Fed, from_cluster, in_file_order, Suits, values_of};
    ghost use Rattle.actions.specs.Fillings.{filled_seen};

    /// An accumulator of the action, to which nothing was fed.
    pub fn new(alloc: Global, kind: &ActionKind) -> Result<Acc, Memory>
        requires { HasEdges kind.now }
        ensures made { IfOk result (λ acc. acc ≡ record { kind = kind.now; entries = 0; last = 0; filled = fold_items kind.now []; kept = kept_of kind.now [] }) }
        ensures fed { IfOk result (λ acc. HasFed acc []) }
    {
        Ok(Acc {
            alloc,
            entries: 0,
            last: 0,
            state: State::new(alloc, kind)?,
        })
    }

    /// Takes in the items of an entry of a cluster; clusters don't fall.
    pub fn feed(&mut self, cluster: u32, items: &Items<'_>) -> Result<(), FeedStop>
        requires suits { Suits self.old.kind items.now }
        requires rising { self.old.last ≤ cluster }
        requires room { self.old.entries < 1000000 }
        ensures fault { (fault : EntryFault) → (result ≡ Err (FeedStop.Fault fault)) ↔ (feed_fault self.old.kind (values_of items.now) ≡ Some fault) }
        ensures memory { result ≡ Err FeedStop.Memory → IsTake self.old.kind }
        ensures err { OnErr result (self.new ≡ self.old) }
        ensures kind { self.new.kind ≡ self.old.kind }
        ensures entries { OnOk result (self.new.entries ≡ self.old.entries + 1) }
        ensures last { OnOk result (self.new.last ≡ cluster) }
        ensures fed { (fed : List Fed) → HasFed self.old fed → OnOk result (HasFed self.new (fed ++ from_cluster cluster (spread self.old.kind (values_of items.now)))) }
    {
        if let Some(fault) = items.fault() {
            return Err(FeedStop::Fault(fault));
        }
        match self.state.feed(cluster, items) {
            Ok(()) => {
                self.entries += 1;
                self.last = cluster;
                Ok(())
            }
            Err(Memory) => Err(FeedStop::Memory),
        }
    }

    /// Takes in the items of the places of a block, of one cluster. Values that can't be fed are `Batch::first_fault`'s to find before.
    pub fn feed_batch(&mut self, cluster: u32, batch: &Batch<'_>) -> Result<(), Memory>
        requires there { EachPlace batch.now.places (HasValues batch.now.sources) }
        requires suits { EachPlace batch.now.places (SuitsAt self.old.kind batch.now.sources) }
        requires no_fault { EachPlace batch.now.places (λ p. feed_fault self.old.kind (values_at batch.now.sources p) ≡ None) }
        requires rising { self.old.last ≤ cluster }
        requires room { self.old.entries + length (places_of batch.now.places) ≤ 1000000 }
        ensures memory { OnErr result (IsTake self.old.kind) }
        ensures err { OnErr result (self.new ≡ self.old) }
        ensures kind { self.new.kind ≡ self.old.kind }
        ensures entries { OnOk result (self.new.entries ≡ self.old.entries + length (places_of batch.now.places)) }
        ensures last { OnOk result (self.new.last ≡ cluster) }
        ensures fed { (fed : List Fed) → HasFed self.old fed → OnOk result (HasFed self.new (fed ++ from_cluster cluster (batch_items self.old.kind batch.now))) }
    {
        self.state.feed_batch(self.alloc, cluster, batch)?;
        self.entries += batch.places.len();
        self.last = cluster;
        Ok(())
    }

    /// Takes in all that was fed to another accumulator of the same action; after `Memory` nothing has changed.
    pub fn merge(&mut self, other: &Acc) -> Result<(), Memory>
        requires kind { other.now.kind ≡ self.old.kind }
        requires room { self.old.entries + other.now.entries ≤ 1000000 }
        ensures memory { OnErr result (IsTake self.old.kind) }
        ensures err { OnErr result (self.new ≡ self.old) }
        ensures kind { self.new.kind ≡ self.old.kind }
        ensures entries { OnOk result (self.new.entries ≡ self.old.entries + other.now.entries) }
        ensures last { OnOk result (self.new.last ≡ max self.old.last other.now.last) }
        ensures fed { (fed more : List Fed) → HasFed self.old fed → HasFed other.now more → OnOk result (HasFed self.new (fed ++ more)) }
    {
        self.state.merge(self.alloc, &other.state)?;
        self.entries += other.entries;
        self.last = self.last.max(other.last);
        Ok(())
    }

    /// What was made of the items so far.
    pub fn filled(&self) -> Filled<'_>
        ensures value { filled_seen result ≡ self.now.filled }
        ensures fed { (fed : List Fed) → HasFed self.now fed → filled_seen result ≡ fold_items self.now.kind (in_file_order fed) }
    {
        self.state.filled()
    }
}

/// What was made of the items: `Extreme` is that of a Min or a Max, and `Number` that of a Reduce.
#[derive(Drop)]
pub enum Filled<'a> {
    Count(u64),
    Sum(i128),
    Extreme(Option<i64>),
    Taken(Taken<'a>),
    Number(i64),
    Flat(&'a Hist1),
    Square(&'a Hist2),
}
