// Selections that part and come together again, and places that came to no value.
ghost use Rattle.std.specs.Prelude.{◌≡◌, ◌+◌, ◌-◌, ◌<◌, ◌≤◌, ℕ, ◌||◌, not, if◌then◌else◌, length, take};
ghost use Rattle.std.specs.List.{filter};
ghost use Rattle.rdf_model.specs.{is_zero};
ghost use Rattle.expr_lanes.specs.{at_place, EachPlace, is_in, is_marked};

use crate::narrowing::{Unmarked, keep_places};
use crate::selection::Selection;
use expr_eval::ScalarStop;

/// Parts the first places of a list into those at which the lane holds a 0 and the others, and answers how many these are.
fn part_places(
    places: &[u32],
    count: usize,
    lane: &[i64],
    zeros: &mut [u32],
    others: &mut [u32],
) -> usize
    requires count { count ≤ length places.now }
    requires inside { EachPlace (take count places.now) (λ p. p < length lane.now) }
    requires zeros { count ≤ length zeros.old }
    requires others { count ≤ length others.old }
    ensures within { result ≤ count }
    ensures zeros { take (count - result) zeros.new ≡ filter (λ p. is_zero (at_place lane.now p)) (take count places.now) }
    ensures others { take result others.new ≡ filter (λ p. not (is_zero (at_place lane.now p))) (take count places.now) }
{
    let mut zero_count = 0;
    let mut other_count = 0;
    for i in 0..count {
        let place = places[i];
        // Each place is written to both lists, so that none costs a branch.
        zeros[zero_count] = place;
        others[other_count] = place;
        if lane[place as usize] == 0 {
            zero_count += 1;
        } else {
            other_count += 1;
        }
    }
    other_count
}

/// Marks the first places of a list.
fn mark_places(places: &[u32], count: usize, mark: bool, marks: &mut [bool])
    requires count { count ≤ length places.now }
    requires inside { EachPlace (take count places.now) (λ p. p < length marks.old) }
    ensures { (p : ℕ) → is_marked marks.new p ≡ (if is_in p (take count places.now) then mark else is_marked marks.old p) }
{
    for i in 0..count {
        marks[places[i] as usize] = mark;
    }
}

/// Parts the selected places into those at which the lane holds a 0 and the others.
pub(crate) fn part(
    selection: &Selection,
    lane: &[i64],
    zeros: &mut Selection,
    others: &mut Selection,
)
    requires inside { EachPlace selection.now (λ p. p < length lane.now) }
    ensures zeros { zeros.new ≡ filter (λ p. is_zero (at_place lane.now p)) selection.now }
    ensures others { others.new ≡ filter (λ p. not (is_zero (at_place lane.now p))) selection.now }
{
    let count = selection.count;
    let parted = part_places(
        &selection.places,
        count,
        lane,
        &mut zeros.places,
        &mut others.places,
    );
    zeros.count = count - parted;
    zeros.is_dense = false;
    others.count = parted;
    others.is_dense = false;
}

/// Leaves the places selected that either side still has.
pub(crate) fn rejoin(
    selection: &mut Selection,
    zeros: &Selection,
    others: &Selection,
    marks: &mut [bool],
)
    requires inside { EachPlace selection.old (λ p. p < length marks.old) }
    requires zeros_inside { EachPlace zeros.now (λ p. p < length marks.old) }
    requires others_inside { EachPlace others.now (λ p. p < length marks.old) }
    requires whole { length zeros.now + length others.now ≡ length selection.old → selection.old ≡ filter (λ p. is_in p others.now || is_in p zeros.now) selection.old }
    ensures { selection.new ≡ filter (λ p. is_in p others.now || is_in p zeros.now) selection.old }
{
    // Nearly always no place of either side stopped.
    if zeros.len() + others.len() == selection.len() {
        return;
    }
    let count = selection.count;
    mark_places(&selection.places, count, true, marks);
    mark_places(&zeros.places, zeros.count, false, marks);
    mark_places(&others.places, others.count, false, marks);
    selection.count = keep_places(&mut selection.places, count, &Unmarked(marks));
    selection.is_dense = false;
}

/// A place of a block with its fault, or with the number of the column that is missing there.
#[derive(Clone, Copy, Debug)]
pub struct Stopped {
    pub place: u32,
    pub stop: ScalarStop,
}

impl Default for Stopped {
    fn default() -> Stopped {
        Stopped {
            place: 0,
            stop: ScalarStop::Need(0),
        }
    }
}
