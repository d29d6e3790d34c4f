// What an accumulator holds.
ghost use Rattle.std.specs.Prelude.{◌≡◌, IfOk};
ghost use Rattle.histograms.specs.{IsAxis};

use crate::acc::Filled;
use crate::batch::{Batch, Sources};
use crate::fills::{
    fill_number_pairs, fill_pairs, fill_points, fill_weighted, fill_weighted_pairs,
};
use crate::folding::{Folds, Greatest, Least, Reduction, Summed, fold_batch, fold_lane};
use crate::items::Items;
use crate::lane::FedLane;
use crate::numbers::{greatest_of, least_of, reduce, start};
use crate::taken::{Taken, TakenValue, gathered, merged};
use histograms::{EdgeRefusal, Edges, Hist1, Hist2};
use rdf_values::{ActionKind, IntList, ListOf, Memory, Name};
use std::alloc::Global;

/// The action with the names of its columns, and what it made of the items so far.
#[derive(Drop)]
pub enum State {
    Count(u64),
    Sum {
        column: Name,
        sum: Summed,
    },
    Min {
        column: Name,
        least: Least,
    },
    Max {
        column: Name,
        greatest: Greatest,
    },
    /// The values by cluster, those of one cluster in the order of feeding.
    Take {
        column: Name,
        values: ListOf<TakenValue>,
    },
    Reduce {
        column: Name,
        reduction: Reduction,
    },
    Histo1D {
        hist: Hist1,
        x: Name,
        weight: Option<Name>,
    },
    Histo2D {
        hist: Hist2,
        x: Name,
        y: Name,
        weight: Option<Name>,
    },
}

// The axis of edges that make one.
fn axis(alloc: Global, edges: &IntList) -> Result<Edges, Memory>
    requires { IsAxis edges.now }
    ensures { IfOk result (λ axis. axis ≡ edges.now) }
{
    match Edges::new(alloc, edges.as_slice()) {
        Ok(axis) => Ok(axis),
        Err(EdgeRefusal::Memory) => Err(Memory),
        Err(EdgeRefusal::BadEdges) => unreachable!(),
    }
}

impl State {
    ghost use Rattle.std.specs.Prelude.{◌≡◌, ◌≤◌, ◌+◌, ◌-◌, ◌++◌, [], ℕ, List, All, None, IfOk, OnErr, OnOk, false, length, true};
    ghost use Rattle.rdf_values.specs.{feed_fault, spread};
    ghost use Rattle.actions.specs.{batch_items, EachPlace, Fed, filled_seen, from_cluster, HasEdges, HasValues, Holds, IsTake, IsWithin, kind_of, made, places_of, Suits, SuitsAt, values_at, values_of};

    /// The state of an action to which nothing was fed.
    pub fn new(alloc: Global, kind: &ActionKind) -> Result<State, Memory>
        requires { HasEdges kind.now }
        ensures { IfOk result (λ state. (kind_of state ≡ kind.now) × Holds state [] × IsWithin 0 state) }
    {
        match kind {
            ActionKind::Count => Ok(State::Count(0)),
            ActionKind::Sum(column) => Ok(State::Sum {
                column: column.copy()?,
                sum: Summed { sum: 0 },
            }),
            ActionKind::Min(column) => Ok(State::Min {
                column: column.copy()?,
                least: Least { best: None },
            }),
            ActionKind::Max(column) => Ok(State::Max {
                column: column.copy()?,
                greatest: Greatest { best: None },
            }),
            ActionKind::Take(column) => Ok(State::Take {
                column: column.copy()?,
                values: ListOf::new(alloc),
            }),
            ActionKind::Reduce(op, column) => Ok(State::Reduce {
                column: column.copy()?,
                reduction: Reduction {
                    op: *op,
                    value: start(*op),
                },
            }),
            ActionKind::Histo1D { x_edges, x, weight } => Ok(State::Histo1D {
                hist: Hist1::new(alloc, axis(alloc, x_edges)?)?,
                x: x.copy()?,
                weight: weight.clone()?,
            }),
            ActionKind::Histo2D {
                x_edges,
                y_edges,
                x,
                y,
                weight,
            } => Ok(State::Histo2D {
                hist: Hist2::new(alloc, axis(alloc, x_edges)?, axis(alloc, y_edges)?)?,
                x: x.copy()?,
                y: y.copy()?,
                weight: weight.clone()?,
            }),
        }
    }

    /// Takes in what an entry of a cluster feeds.
    pub fn feed(&mut self, cluster: u32, items: &Items<'_>) -> Result<(), Memory>
        requires suits { Suits (kind_of self.old) items.now }
        requires no_fault { feed_fault (kind_of self.old) (values_of items.now) ≡ None }
        requires room { IsWithin 999999 self.old }
        ensures kind { kind_of self.new ≡ kind_of self.old }
        ensures memory { OnErr result (IsTake (kind_of self.old)) }
        ensures err { OnErr result (self.new ≡ self.old) }
        ensures within { (n : ℕ) → IsWithin n self.old → IsWithin (n + 1) self.new }
        ensures fed { (fed : List Fed) → All (λ f. f.cluster ≤ cluster) fed → Holds self.old fed → OnOk result (Holds self.new (fed ++ from_cluster cluster (spread (kind_of self.old) (values_of items.now)))) }
    {
        match self {
            State::Count(entries) => *entries += 1,
            State::Sum { sum, .. } => sum.take_in(items.first()),
            State::Min { least, .. } => least.take_in(items.first()),
            State::Max { greatest, .. } => greatest.take_in(items.first()),
            State::Take { values, .. } => match items.scalar() {
                Some(value) => return values.push(TakenValue { cluster, value }),
                None => unreachable!(),
            },
            State::Reduce { reduction, .. } => reduction.take_in(items.first()),
            State::Histo1D { hist, .. } => fill_points(hist, items.first(), &items.weight()),
            State::Histo2D { hist, .. } => {
                fill_pairs(hist, items.first(), items.second(), &items.weight());
            }
        }
        Ok(())
    }

    /// Takes in what each of the places of a block feeds, one after another; not for a Take.
    fn feed_each(&mut self, cluster: u32, batch: &Batch<'_>)
        requires kept { IsTake (kind_of self.old) → ⊥ }
        requires few { length (places_of batch.now.places) ≤ 1000000 }
        requires there { EachPlace batch.now.places (HasValues batch.now.sources) }
        requires suits { EachPlace batch.now.places (SuitsAt (kind_of self.old) batch.now.sources) }
        requires no_fault { EachPlace batch.now.places (λ p. feed_fault (kind_of self.old) (values_at batch.now.sources p) ≡ None) }
        requires room { IsWithin (1000000 - length (places_of batch.now.places)) self.old }
        ensures kind { kind_of self.new ≡ kind_of self.old }
        ensures within { (n : ℕ) → IsWithin n self.old → IsWithin (n + length (places_of batch.now.places)) self.new }
        ensures fed { (fed : List Fed) → All (λ f. f.cluster ≤ cluster) fed → Holds self.old fed → Holds self.new (fed ++ from_cluster cluster (batch_items (kind_of self.old) batch.now)) }
    {
        for i in 0..batch.places.len() {
            let items = batch.sources.items(batch.places.at(i));
            match self.feed(cluster, &items) {
                Ok(()) => {}
                Err(Memory) => unreachable!(),
            }
        }
    }

    // Fills a histogram with numbers, one of each column at each place, and tells whether that was what the batch is for.
    fn fill_at_once(&mut self, batch: &Batch<'_>) -> bool
        requires few { length (places_of batch.now.places) ≤ 1000000 }
        requires there { EachPlace batch.now.places (HasValues batch.now.sources) }
        requires suits { EachPlace batch.now.places (SuitsAt (kind_of self.old) batch.now.sources) }
        requires no_fault { EachPlace batch.now.places (λ p. feed_fault (kind_of self.old) (values_at batch.now.sources p) ≡ None) }
        requires room { IsWithin (1000000 - length (places_of batch.now.places)) self.old }
        ensures other { result ≡ false → self.new ≡ self.old }
        ensures kind { kind_of self.new ≡ kind_of self.old }
        ensures within { result ≡ true → (n : ℕ) → IsWithin n self.old → IsWithin (n + length (places_of batch.now.places)) self.new }
        ensures fed { result ≡ true → (cluster : ℕ) (fed : List Fed) → All (λ f. f.cluster ≤ cluster) fed → Holds self.old fed
            → Holds self.new (fed ++ from_cluster cluster (batch_items (kind_of self.old) batch.now)) }
    {
        match self {
            State::Histo1D { hist, .. } => match &batch.sources {
                Sources::One { x } => {
                    fold_lane(hist, x, &batch.places);
                    return true;
                }
                Sources::Weighted {
                    x: FedLane::Int(numbers),
                    w: FedLane::Int(weights),
                } => {
                    fill_weighted(hist, numbers, weights, &batch.places);
                    return true;
                }
                _ => {}
            },
            State::Histo2D { hist, .. } => match &batch.sources {
                Sources::Pair {
                    x: FedLane::Int(xs),
                    y: FedLane::Int(ys),
                } => {
                    fill_number_pairs(hist, xs, ys, &batch.places);
                    return true;
                }
                Sources::WeightedPair {
                    x: FedLane::Int(xs),
                    y: FedLane::Int(ys),
                    w: FedLane::Int(weights),
                } => {
                    fill_weighted_pairs(hist, xs, ys, weights, &batch.places);
                    return true;
                }
                _ => {}
            },
            _ => {}
        }
        false
    }

    /// Takes in what the places of a block feed; after `Memory` nothing has changed.
    pub fn feed_batch(
        &mut self,
        alloc: Global,
        cluster: u32,
        batch: &Batch<'_>,
    ) -> Result<(), Memory>
        requires few { length (places_of batch.now.places) ≤ 1000000 }
        requires there { EachPlace batch.now.places (HasValues batch.now.sources) }
        requires suits { EachPlace batch.now.places (SuitsAt (kind_of self.old) batch.now.sources) }
        requires no_fault { EachPlace batch.now.places (λ p. feed_fault (kind_of self.old) (values_at batch.now.sources p) ≡ None) }
        requires room { IsWithin (1000000 - length (places_of batch.now.places)) self.old }
        ensures kind { kind_of self.new ≡ kind_of self.old }
        ensures memory { OnErr result (IsTake (kind_of self.old)) }
        ensures err { OnErr result (self.new ≡ self.old) }
        ensures within { (n : ℕ) → IsWithin n self.old → IsWithin (n + length (places_of batch.now.places)) self.new }
        ensures fed { (fed : List Fed) → All (λ f. f.cluster ≤ cluster) fed → Holds self.old fed → OnOk result (Holds self.new (fed ++ from_cluster cluster (batch_items (kind_of self.old) batch.now))) }
    {
        match self {
            State::Count(entries) => *entries += batch.places.len() as u64,
            State::Sum { sum, .. } => fold_batch(sum, batch),
            State::Min { least, .. } => fold_batch(least, batch),
            State::Max { greatest, .. } => fold_batch(greatest, batch),
            State::Take { values, .. } => {
                let mut more = gathered(alloc, cluster, batch)?;
                return values.append(&mut more);
            }
            State::Reduce { reduction, .. } => fold_batch(reduction, batch),
            State::Histo1D { .. } | State::Histo2D { .. } => {
                if !self.fill_at_once(batch) {
                    self.feed_each(cluster, batch);
                }
            }
        }
        Ok(())
    }

    /// Takes in all that another state of the same action holds.
    pub fn merge(&mut self, alloc: Global, other: &State) -> Result<(), Memory>
        requires kind { kind_of other.now ≡ kind_of self.old }
        requires room { IsWithin 1000000 self.old }
        requires other_room { IsWithin 1000000 other.now }
        ensures kind { kind_of self.new ≡ kind_of self.old }
        ensures memory { OnErr result (IsTake (kind_of self.old)) }
        ensures err { OnErr result (self.new ≡ self.old) }
        ensures within { (n m : ℕ) → IsWithin n self.old → IsWithin m other.now → OnOk result (IsWithin (n + m) self.new) }
        ensures fed { (a b : List Fed) → Holds self.old a → Holds other.now b → OnOk result (Holds self.new (a ++ b)) }
    {
        match (self, other) {
            (State::Count(entries), State::Count(more)) => *entries += *more,
            (State::Sum { sum, .. }, State::Sum { sum: more, .. }) => sum.sum += more.sum,
            (State::Min { least, .. }, State::Min { least: more, .. }) => {
                least.best = least_of(least.best, more.best);
            }
            (State::Max { greatest, .. }, State::Max { greatest: more, .. }) => {
                greatest.best = greatest_of(greatest.best, more.best);
            }
            (State::Take { values, .. }, State::Take { values: more, .. }) => {
                *values = merged(alloc, values.as_slice(), more.as_slice())?;
            }
            (
                State::Reduce { reduction, .. },
                State::Reduce {
                    reduction: more,
                    ..
                },
            ) => {
                reduction.value = reduce(reduction.op, reduction.value, more.value);
            }
            (State::Histo1D { hist, .. }, State::Histo1D { hist: more, .. }) => hist.merge(more),
            (State::Histo2D { hist, .. }, State::Histo2D { hist: more, .. }) => hist.merge(more),
            _ => unreachable!(),
        }
        Ok(())
    }

    /// What was made of the items so far.
    pub fn filled(&self) -> Filled<'_>
        requires { IsWithin 1000000 self.now }
        ensures { filled_seen result ≡ made self.now }
    {
        match self {
            State::Count(entries) => Filled::Count(*entries),
            State::Sum { sum, .. } => Filled::Sum(sum.sum),
            State::Min { least, .. } => Filled::Extreme(least.best),
            State::Max { greatest, .. } => Filled::Extreme(greatest.best),
            State::Take { values, .. } => Filled::Taken(Taken::new(values.as_slice())),
            State::Reduce { reduction, .. } => Filled::Number(reduction.value),
            State::Histo1D { hist, .. } => Filled::Flat(hist),
            State::Histo2D { hist, .. } => Filled::Square(hist),
        }
    }
}
