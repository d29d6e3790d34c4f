// Folding the numbers of a lane.
ghost use Rattle.std.specs.Prelude.{◌≡◌, ◌+◌, ◌-◌, ◌*◌, ◌^◌, ◌<◌, ◌≤◌, ◌++◌, ◌+ℤ◌, ℕ, ℤ, All, List, fold, length, map, nat_abs, pos, slice_index_or};
ghost use Rattle.std.specs.Int.{int_max, int_min};
ghost use Rattle.rdf_values.specs.{reduce_step};
ghost use Rattle.actions.specs.Batches.{EachPlace, HasPlace, HasValues, first_numbers_in, numbers_in, places_of, values_at};
ghost use Rattle.actions.specs.Parts.{first_numbers};
ghost use Rattle.actions.specs.Accumulators.{better_of};

use crate::batch::Batch;
use crate::lane::FedLane;
use crate::numbers::{greatest, least, reduce};
use crate::places::Places;
use histograms::Hist1;
use rdf_values::ReduceOp;
use std::slice;

/// What takes in numbers, one after another.
pub(crate) trait Folds {
    /// What the numbers made of another one.
    ghost folded: { Self → Self → List ℤ → Type 0 };

    /// How large it is at most, where that is bounded.
    ghost size: { Self → ℕ };

    /// Takes in more numbers.
    fn take_in(&mut self, numbers: &[i64])
        requires room { size self.old + length numbers.now * 2 ^ 63 < 2 ^ 127 }
        ensures folded { (start : Self) (before : List ℤ) → folded start self.old before → folded start self.new (before ++ numbers.now) }
        ensures bounded { size self.new ≤ size self.old + length numbers.now * 2 ^ 63 };
}

/// A sum.
#[derive(Clone, Copy, Debug)]
pub struct Summed {
    pub sum: i128,
}

/// The least of some numbers, if there are any.
#[derive(Clone, Copy, Debug)]
pub struct Least {
    pub best: Option<i64>,
}

/// The greatest of some numbers, if there are any.
#[derive(Clone, Copy, Debug)]
pub struct Greatest {
    pub best: Option<i64>,
}

/// An operation, and what it made of the numbers so far.
#[derive(Clone, Copy, Debug)]
pub struct Reduction {
    pub op: ReduceOp,
    pub value: i64,
}

impl Folds for Summed {
    ghost folded = { λ a b zs. b.sum ≡ fold ◌+ℤ◌ a.sum zs };

    ghost size = { λ a. nat_abs a.sum };

    fn take_in(&mut self, numbers: &[i64]) {
        let mut sum = self.sum;
        for number in numbers {
            sum += *number as i128;
        }
        self.sum = sum;
    }
}

impl Folds for Least {
    ghost folded = { λ a b zs. b.best ≡ fold (better_of int_min) a.best zs };

    ghost size = { λ a. 0 };

    fn take_in(&mut self, numbers: &[i64]) {
        let mut best = self.best;
        for number in numbers {
            best = Some(least(best, *number));
        }
        self.best = best;
    }
}

impl Folds for Greatest {
    ghost folded = { λ a b zs. b.best ≡ fold (better_of int_max) a.best zs };

    ghost size = { λ a. 0 };

    fn take_in(&mut self, numbers: &[i64]) {
        let mut best = self.best;
        for number in numbers {
            best = Some(greatest(best, *number));
        }
        self.best = best;
    }
}

impl Folds for Reduction {
    ghost use Rattle.std.specs.Prelude.{◌≡◌, fold};

    ghost folded = { λ a b zs. (b.op ≡ a.op) × (b.value ≡ fold (reduce_step a.op) a.value zs) };

    ghost size = { λ a. 0 };

    fn take_in(&mut self, numbers: &[i64]) {
        let Reduction { op, mut value } = *self;
        for number in numbers {
            value = reduce(op, value, *number);
        }
        self.value = value;
    }
}

impl Folds for Hist1 {
    ghost use Rattle.std.specs.Prelude.{◌≡◌, ◌+◌, ◌-◌, ◌*◌, ◌^◌, ◌++◌, List, length, map, pos};
    ghost use Rattle.rdf_values.specs.{Item};
    ghost use Rattle.rdf_values.specs.declared.results.Item.TheVariants.{Point};
    ghost use Rattle.histograms.specs.{HasFilled};

    ghost folded = { λ a b zs. (b.edges ≡ a.edges) × (b.fills ≡ a.fills + length zs) × ((before : List Item) → HasFilled a before → HasFilled b (before ++ map (λ z. Point z (pos 1)) zs)) };

    // a histogram that takes no more fills is as large as can be
    ghost size = { λ a. (a.fills + (2 ^ 64 - 2 ^ 40)) * 2 ^ 63 };

    fn take_in(&mut self, numbers: &[i64]) {
        for number in numbers {
            self.fill(*number, 1);
        }
    }
}

// Takes in the numbers of the listed places.
fn fold_listed<F: Folds>(folder: &mut F, numbers: &[i64], listed: &[u32])
    requires there { All (λ p. p < length numbers.now) listed.now }
    requires room { F.size folder.old + length listed.now * 2 ^ 63 < 2 ^ 127 }
    ensures folded { (start : F) (before : List ℤ) → F.folded start folder.old before → F.folded start folder.new (before ++ map (λ p. slice_index_or numbers.now p (pos 0)) listed.now) }
    ensures bounded { F.size folder.new ≤ F.size folder.old + length listed.now * 2 ^ 63 }
{
    for place in listed {
        folder.take_in(slice::from_ref(&numbers[*place as usize]));
    }
}

/// Takes in the numbers of a lane at some places.
pub(crate) fn fold_lane<F: Folds>(folder: &mut F, lane: &FedLane<'_>, places: &Places<'_>)
    requires few { length (places_of places.now) ≤ 1000000 }
    requires there { EachPlace places.now (HasPlace lane.now) }
    requires room { F.size folder.old + length (numbers_in lane.now (places_of places.now)) * 2 ^ 63 < 2 ^ 127 }
    ensures folded { (start : F) (before : List ℤ) → F.folded start folder.old before → F.folded start folder.new (before ++ numbers_in lane.now (places_of places.now)) }
    ensures bounded { F.size folder.new ≤ F.size folder.old + length (numbers_in lane.now (places_of places.now)) * 2 ^ 63 }
{
    match (lane, places) {
        (FedLane::Int(numbers), Places::First(count)) => folder.take_in(
            &numbers[..*count as usize],
        ),
        (FedLane::Int(numbers), Places::Listed(listed)) => fold_listed(folder, numbers, listed),
        _ => {
            let (lane, places) = (*lane, *places);
            for i in 0..places.len() {
                folder.take_in(lane.numbers(places.at(i)));
            }
        }
    }
}

/// Takes in the numbers that a batch has for an action of one column.
pub(crate) fn fold_batch<F: Folds>(folder: &mut F, batch: &Batch<'_>)
    requires few { length (places_of batch.now.places) ≤ 1000000 }
    requires there { EachPlace batch.now.places (HasValues batch.now.sources) }
    requires short { EachPlace batch.now.places (λ p. length (first_numbers (values_at batch.now.sources p)) ≤ 4096) }
    requires room { F.size folder.old ≤ (1000000 - length (places_of batch.now.places)) * 2 ^ 75 }
    ensures folded { (start : F) (before : List ℤ) → F.folded start folder.old before → F.folded start folder.new (before ++ first_numbers_in batch.now) }
    ensures bounded { F.size folder.new ≤ F.size folder.old + length (places_of batch.now.places) * 2 ^ 75 }
{
    if let Some(lane) = batch.sources.first() {
        fold_lane(folder, &lane, &batch.places);
    }
}
