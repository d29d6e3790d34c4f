// What the entries of a block feed to an action, all at once.
ghost use Rattle.std.specs.Prelude.{◌≡◌, ◌≤◌, ◌<◌, ◌^◌, None, false, length, nat_abs, pos, slice_index_or};
ghost use Rattle.rdf_values.specs.{ActionKind, feed_fault};
ghost use Rattle.actions.specs.{EachPlace, first_fault_in, first_lane, HasValues, places_of, Suits, SuitsAt, values_at, values_of};

use crate::items::Items;
use crate::lane::FedLane;
use crate::places::Places;
use rdf_values::EntryFault;

/// The lanes of an action's columns: none for a Count, then the coordinates, then the weight.
#[derive(Clone, Copy)]
pub enum Sources<'a> {
    Entry,
    One {
        x: FedLane<'a>,
    },
    Weighted {
        x: FedLane<'a>,
        w: FedLane<'a>,
    },
    Pair {
        x: FedLane<'a>,
        y: FedLane<'a>,
    },
    WeightedPair {
        x: FedLane<'a>,
        y: FedLane<'a>,
        w: FedLane<'a>,
    },
}

/// The values of an action's columns at some places of a block.
#[derive(Clone, Copy)]
pub struct Batch<'a> {
    pub places: Places<'a>,
    pub sources: Sources<'a>,
}

/// A place whose values can't be fed, and why.
#[derive(Clone, Copy, Debug, PartialEq, Eq)]
pub struct BatchFault {
    pub place: u32,
    pub kind: EntryFault,
}

impl<'a> Sources<'a> {
    /// The lane of the first column; a Count has none.
    pub fn first(&self) -> Option<FedLane<'a>>
        ensures { result ≡ first_lane self.now }
    {
        match self {
            Sources::Entry => None,
            Sources::One { x }
            | Sources::Weighted { x, .. }
            | Sources::Pair { x, .. }
            | Sources::WeightedPair { x, .. } => Some(*x),
        }
    }

    /// The values of a place.
    pub fn items(&self, place: u32) -> Items<'a>
        requires { HasValues self.now place }
        ensures values { values_of result ≡ values_at self.now place }
        ensures suits { (kind : ActionKind) → SuitsAt kind self.now place → Suits kind result }
    {
        match self {
            Sources::Entry => Items::Entry,
            Sources::One { x } => Items::One { x: x.part(place) },
            Sources::Weighted { x, w } => Items::Weighted {
                x: x.part(place),
                w: w.part(place),
            },
            Sources::Pair { x, y } => Items::Pair {
                x: x.part(place),
                y: y.part(place),
            },
            Sources::WeightedPair { x, y, w } => Items::WeightedPair {
                x: x.part(place),
                y: y.part(place),
                w: w.part(place),
            },
        }
    }
}

// Whether one of the weights at some places is out of range.
#[tactic(auto, using(lemmas::proofs::or_parts, crate::proofs::Batching::one_more_light, std::proofs::lemmas::List::take_all))]
fn any_heavy(weights: &[i64], places: &Places<'_>) -> bool
    requires few { length (places_of places.now) ≤ 1000000 }
    requires there { EachPlace places.now (λ p. p < length weights.now) }
    ensures { result ≡ false → EachPlace places.now (λ p. nat_abs (slice_index_or weights.now p (pos 0)) < 2 ^ 31) }
{
    let mut heavy = false;
    for i in 0..places.len() {
        heavy |= weights[places.at(i) as usize].unsigned_abs() >= 1 << 31;
    }
    heavy
}

impl Batch<'_> {
    // Whether a place may have values that can't be fed: nearly always none has.
    fn may_fault(&self) -> bool
        requires few { length (places_of self.now.places) ≤ 1000000 }
        requires there { EachPlace self.now.places (HasValues self.now.sources) }
        ensures { result ≡ false → (kind : ActionKind) → EachPlace self.now.places (SuitsAt kind self.now.sources) → EachPlace self.now.places (λ p. feed_fault kind (values_at self.now.sources p) ≡ None) }
    {
        match &self.sources {
            Sources::Entry | Sources::One { .. } => false,
            Sources::Weighted {
                x: FedLane::Int(_),
                w: FedLane::Int(weights),
            } => any_heavy(weights, &self.places),
            Sources::Pair {
                x: FedLane::Int(_),
                y: FedLane::Int(_),
            } => false,
            Sources::WeightedPair {
                x: FedLane::Int(_),
                y: FedLane::Int(_),
                w: FedLane::Int(weights),
            } => any_heavy(weights, &self.places),
            _ => true,
        }
    }

    /// The first of the places whose values an action can't be fed with, and why.
    #[tactic(auto, using(crate::proofs::Batching::none_found))]
    pub fn first_fault(&self) -> Option<BatchFault>
        requires few { length (places_of self.now.places) ≤ 1000000 }
        requires there { EachPlace self.now.places (HasValues self.now.sources) }
        ensures { (kind : ActionKind) → EachPlace self.now.places (SuitsAt kind self.now.sources) → result ≡ first_fault_in kind self.now.sources (places_of self.now.places) }
    {
        if !self.may_fault() {
            return None;
        }
        for i in 0..self.places.len() {
            let place = self.places.at(i);
            if let Some(kind) = self.sources.items(place).fault() {
                return Some(BatchFault { place, kind });
            }
        }
        None
    }
}
