// One operation over the places of a selection.
ghost use Rattle.std.specs.Prelude.{◌≡◌, ◌+◌, ◌<◌, ◌≤◌, ℕ, ℤ, true, false, length, take};
ghost use Rattle.rdf_model.specs.{Gives, Outcome};
ghost use Rattle.expr_lanes.specs.Places.{answered_at, at_place, is_in, EachPlace, Evaluated};

use crate::MAX_PLACES;
use crate::parting::Stopped;
use crate::selection::Selection;
use arrayvec::ArrayVec;
use expr_eval::ScalarStop;

/// What is computed at each place.
pub(crate) trait Kernel {
    ghost can: { Self → ℕ → Type 0 };

    ghost gives: { Self → ℕ → Outcome ℕ ℤ };

    /// What the place comes to.
    fn at(&self, place: u32) -> Result<i64, ScalarStop>
        requires { can self.now place }
        ensures { answered_at result ≡ gives self.now place };
}

/// Writes what each of the first places comes to into the lane, up to one that comes to no value. Answers whether there is none.
#[inline(always)]
fn cover<K: Kernel>(kernel: &K, count: usize, lane: &mut [i64]) -> bool
    requires can { (p : ℕ) → p < count → K.can kernel.now p }
    requires few { count ≤ MAX_PLACES }
    requires long { count ≤ length lane.old }
    ensures values { result ≡ true → (p : ℕ) → p < count → K.gives kernel.now p ≡ Gives (at_place lane.new p) }
    ensures others { (p : ℕ) → count ≤ p → at_place lane.new p ≡ at_place lane.old p }
{
    for i in 0..count {
        match kernel.at(i as u32) {
            Ok(number) => lane[i] = number,
            Err(_) => return false,
        }
    }
    true
}

/// Writes what each place of the list comes to into the lane, up to one that comes to no value. Answers whether there is none.
#[inline(always)]
fn cover_listed<K: Kernel>(kernel: &K, places: &[u32], lane: &mut [i64]) -> bool
    requires can { EachPlace places.now (λ p. K.can kernel.now p) }
    requires inside { EachPlace places.now (λ p. p < length lane.old) }
    ensures values { result ≡ true → EachPlace places.now (λ p. K.gives kernel.now p ≡ Gives (at_place lane.new p)) }
    ensures others { (p : ℕ) → is_in p places.now ≡ false → at_place lane.new p ≡ at_place lane.old p }
{
    for place in places {
        match kernel.at(*place) {
            Ok(number) => lane[*place as usize] = number,
            Err(_) => return false,
        }
    }
    true
}

/// The same over the places of a selection.
#[inline(always)]
fn cover_selected<K: Kernel>(kernel: &K, selection: &Selection, lane: &mut [i64]) -> bool
    requires can { EachPlace selection.now (λ p. K.can kernel.now p) }
    requires inside { EachPlace selection.now (λ p. p < length lane.old) }
    ensures values { result ≡ true → EachPlace selection.now (λ p. K.gives kernel.now p ≡ Gives (at_place lane.new p)) }
    ensures others { (p : ℕ) → is_in p selection.now ≡ false → at_place lane.new p ≡ at_place lane.old p }
{
    if selection.is_dense {
        cover(kernel, selection.count, lane)
    } else {
        cover_listed(kernel, selection.as_slice(), lane)
    }
}

/// Writes what each place comes to into the lane, moves those that came to a value to the front, and answers how many they are.
fn sift<K: Kernel>(
    kernel: &K,
    places: &mut [u32],
    count: usize,
    lane: &mut [i64],
    stops: &mut ArrayVec<Stopped, MAX_PLACES>,
) -> usize
    requires count { count ≤ length places.old }
    requires can { EachPlace (take count places.old) (λ p. K.can kernel.now p) }
    requires inside { EachPlace (take count places.old) (λ p. p < length lane.old) }
    requires room { length stops.old.items + count ≤ MAX_PLACES }
    ensures within { result ≤ count }
    ensures evaluated { Evaluated (K.gives kernel.now) (take count places.old) (take result places.new) lane.old lane.new stops.old.items stops.new.items }
{
    let mut kept = 0;
    for i in 0..count {
        let place = places[i];
        match kernel.at(place) {
            Ok(number) => {
                lane[place as usize] = number;
                places[kept] = place;
                kept += 1;
            }
            Err(stop) => stops.push(Stopped { place, stop }),
        }
    }
    kept
}

/// Writes what each selected place comes to into the lane; those that come to no value become stops.
#[inline(always)]
pub(crate) fn run<K: Kernel>(
    kernel: &K,
    selection: &mut Selection,
    lane: &mut [i64],
    stops: &mut ArrayVec<Stopped, MAX_PLACES>,
)
    requires can { EachPlace selection.old (λ p. K.can kernel.now p) }
    requires inside { EachPlace selection.old (λ p. p < length lane.old) }
    requires room { length stops.old.items + length selection.old ≤ MAX_PLACES }
    ensures { Evaluated (K.gives kernel.now) selection.old selection.new lane.old lane.new stops.old.items stops.new.items }
{
    // Nearly always no place stops: then there is nothing to move.
    if cover_selected(kernel, selection, lane) {
        return;
    }
    selection.count = sift(kernel, &mut selection.places, selection.count, lane, stops);
    selection.is_dense = false;
}
