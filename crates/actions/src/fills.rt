// Filling histograms with the points of an entry.
ghost use Rattle.std.specs.Prelude.{◌≡◌, ◌<◌, ◌≤◌, ◌+◌, ◌^◌, ◌++◌, ℕ, List, length, map, All, pos, slice_index_or};
ghost use Rattle.rdf_values.specs.{Item, points, points2, weights};
ghost use Rattle.rdf_values.specs.declared.results.Item.TheVariants.{Point, Point2};
ghost use Rattle.histograms.specs.{HasFilled, HasFilled2, IsWeight};
ghost use Rattle.actions.specs.{EachPlace, HasWeight, part_values, places_of};

use crate::items::ColumnValue;
use crate::places::Places;
use histograms::{Hist1, Hist2, MOST_FILLS};

/// The weight of an entry's point by its place: 1 where none is given, or the number for each, or the vector's.
pub fn weight_at(weight: &Option<ColumnValue<'_>>, i: usize) -> i64
    requires small { i < 2 ^ 60 }
    requires there { HasWeight i weight.now }
    ensures { (n : ℕ) → i < n → slice_index_or (weights n (part_values weight.now)) i (pos 0) ≡ result }
{
    match weight {
        None => 1,
        Some(ColumnValue::Int(weight)) => *weight,
        Some(ColumnValue::Vect(weights)) => weights[i],
        Some(ColumnValue::Bool(_)) => unreachable!(),
    }
}

/// Fills the points of one entry, each with its weight.
#[tactic(auto, using(crate::proofs::States::points_filled))]
pub fn fill_points(hist: &mut Hist1, xs: &[i64], weight: &Option<ColumnValue<'_>>)
    requires lengths { length (weights (length xs.now) (part_values weight.now)) ≡ length xs.now }
    requires weights { All IsWeight (weights (length xs.now) (part_values weight.now)) }
    requires room { hist.old.fills + length xs.now ≤ MOST_FILLS }
    ensures edges { hist.new.edges ≡ hist.old.edges }
    ensures fills { hist.new.fills ≡ hist.old.fills + length xs.now }
    ensures filled { (before : List Item) → HasFilled hist.old before → HasFilled hist.new (before ++ points xs.now (weights (length xs.now) (part_values weight.now))) }
{
    for (i, x) in xs.iter().enumerate() {
        hist.fill(*x, weight_at(weight, i));
    }
}

/// Fills the pairs of one entry, each with its weight.
#[tactic(auto, using(crate::proofs::States::points2_filled))]
pub fn fill_pairs(hist: &mut Hist2, xs: &[i64], ys: &[i64], weight: &Option<ColumnValue<'_>>)
    requires pairs { length ys.now ≡ length xs.now }
    requires lengths { length (weights (length xs.now) (part_values weight.now)) ≡ length xs.now }
    requires weights { All IsWeight (weights (length xs.now) (part_values weight.now)) }
    requires room { hist.old.fills + length xs.now ≤ MOST_FILLS }
    ensures x_edges { hist.new.x_edges ≡ hist.old.x_edges }
    ensures y_edges { hist.new.y_edges ≡ hist.old.y_edges }
    ensures fills { hist.new.fills ≡ hist.old.fills + length xs.now }
    ensures filled { (before : List Item) → HasFilled2 hist.old before → HasFilled2 hist.new (before ++ points2 xs.now ys.now (weights (length xs.now) (part_values weight.now))) }
{
    for (i, x) in xs.iter().enumerate() {
        hist.fill(*x, ys[i], weight_at(weight, i));
    }
}

/// Fills the numbers of some places, each with its weight.
#[tactic(auto, using(crate::proofs::Batching::one_point_more))]
pub fn fill_weighted(hist: &mut Hist1, numbers: &[i64], weights: &[i64], places: &Places<'_>)
    requires few { length (places_of places.now) ≤ 1000000 }
    requires there { EachPlace places.now (λ p. p < length numbers.now) }
    requires weighed { EachPlace places.now (λ p. p < length weights.now) }
    requires light { EachPlace places.now (λ p. IsWeight (slice_index_or weights.now p (pos 0))) }
    requires room { hist.old.fills + length (places_of places.now) ≤ MOST_FILLS }
    ensures edges { hist.new.edges ≡ hist.old.edges }
    ensures fills { hist.new.fills ≡ hist.old.fills + length (places_of places.now) }
    ensures filled { (before : List Item) → HasFilled hist.old before → HasFilled hist.new (before ++ map (λ p. Point (slice_index_or numbers.now p (pos 0)) (slice_index_or weights.now p (pos 0))) (places_of places.now)) }
{
    for i in 0..places.len() {
        let place = places.at(i) as usize;
        hist.fill(numbers[place], weights[place]);
    }
}

/// Fills the pairs of numbers of some places.
#[tactic(auto, using(crate::proofs::Batching::one_point_more))]
pub fn fill_number_pairs(hist: &mut Hist2, xs: &[i64], ys: &[i64], places: &Places<'_>)
    requires few { length (places_of places.now) ≤ 1000000 }
    requires there { EachPlace places.now (λ p. p < length xs.now) }
    requires paired { EachPlace places.now (λ p. p < length ys.now) }
    requires room { hist.old.fills + length (places_of places.now) ≤ MOST_FILLS }
    ensures x_edges { hist.new.x_edges ≡ hist.old.x_edges }
    ensures y_edges { hist.new.y_edges ≡ hist.old.y_edges }
    ensures fills { hist.new.fills ≡ hist.old.fills + length (places_of places.now) }
    ensures filled { (before : List Item) → HasFilled2 hist.old before → HasFilled2 hist.new (before ++ map (λ p. Point2 (slice_index_or xs.now p (pos 0)) (slice_index_or ys.now p (pos 0)) (pos 1)) (places_of places.now)) }
{
    for i in 0..places.len() {
        let place = places.at(i) as usize;
        hist.fill(xs[place], ys[place], 1);
    }
}

/// Fills the pairs of numbers of some places, each with its weight.
#[tactic(auto, using(crate::proofs::Batching::one_point_more))]
pub fn fill_weighted_pairs(
    hist: &mut Hist2,
    xs: &[i64],
    ys: &[i64],
    weights: &[i64],
    places: &Places<'_>,
)
    requires few { length (places_of places.now) ≤ 1000000 }
    requires there { EachPlace places.now (λ p. p < length xs.now) }
    requires paired { EachPlace places.now (λ p. p < length ys.now) }
    requires weighed { EachPlace places.now (λ p. p < length weights.now) }
    requires light { EachPlace places.now (λ p. IsWeight (slice_index_or weights.now p (pos 0))) }
    requires room { hist.old.fills + length (places_of places.now) ≤ MOST_FILLS }
    ensures x_edges { hist.new.x_edges ≡ hist.old.x_edges }
    ensures y_edges { hist.new.y_edges ≡ hist.old.y_edges }
    ensures fills { hist.new.fills ≡ hist.old.fills + length (places_of places.now) }
    ensures filled { (before : List Item) → HasFilled2 hist.old before → HasFilled2 hist.new (before
        ++ map (λ p. Point2 (slice_index_or xs.now p (pos 0)) (slice_index_or ys.now p (pos 0)) (slice_index_or weights.now p (pos 0))) (places_of places.now)) }
{
    for i in 0..places.len() {
        let place = places.at(i) as usize;
        hist.fill(xs[place], ys[place], weights[place]);
    }
}
