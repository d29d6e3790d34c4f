// Places of a block.
ghost use Rattle.std.specs.Prelude.{◌≡◌, ◌<◌, ◌≤◌, [], nat_lt, not, length, take, IfSome};
ghost use Rattle.std.specs.List.{filter, range_with_len};
ghost use Rattle.rdf_model.specs.{is_set};
ghost use Rattle.expr_lanes.specs.Places.{at_place, is_marked, AreRising, EachPlace};

use crate::MAX_PLACES;
use crate::narrowing::{Below, PlaceTest, Set, Unmarked, keep_places};
use std::marker::Model;

/// The places of a block at which something is evaluated.
#[derive(Drop)]
pub struct Selection {
    pub(crate) places: [u32; MAX_PLACES],
    pub(crate) count: usize,
    // they are the first of the block, in order
    pub(crate) is_dense: bool,
}

impl Model for Selection {
    ghost use Rattle.std.specs.Prelude.{◌≡◌, ◌≤◌, ℕ, List, true, take};
    ghost use Rattle.std.specs.List.{range_with_len};
    ghost use Rattle.expr_lanes.specs.Places.{AreRising};
    ghost use Rattle.expr_lanes.specs.declared.TheConstants.{MAX_PLACES};

    ghost Value = { List ℕ };

    ghost view = { λ s. take s.count s.places };

    ghost invariant = { λ s. (s.count ≤ MAX_PLACES) × (s.is_dense ≡ true → take s.count s.places ≡ range_with_len 0 s.count) × AreRising (take s.count s.places) };
}

impl Selection {
    /// No place is selected.
    pub fn new() -> Selection
        ensures { result ≡ [] }
    {
        Selection {
            places: [0; MAX_PLACES],
            count: 0,
            is_dense: false,
        }
    }

    /// Selects the first places of a block.
    pub fn select_first(&mut self, count: usize)
        requires { count ≤ MAX_PLACES }
        ensures { self.new ≡ range_with_len 0 count }
    {
        number_places(&mut self.places, count);
        self.count = count;
        self.is_dense = true;
    }

    /// Selects the same places as another selection.
    pub fn copy_from(&mut self, other: &Selection)
        ensures { self.new ≡ other.now }
    {
        self.places[..other.count].copy_from_slice(other.as_slice());
        self.count = other.count;
        self.is_dense = other.is_dense;
    }

    /// Leaves the places selected that pass the test.
    fn keep<T: PlaceTest>(&mut self, test: &T)
        requires { EachPlace self.old (T.can test.now) }
        ensures { self.new ≡ filter (T.passes test.now) self.old }
    {
        let count = self.count;
        let kept = keep_places(&mut self.places, count, test);
        // Where none is dropped, they are the first of the block as before.
        self.is_dense = self.is_dense && kept == count;
        self.count = kept;
    }

    /// Leaves the places selected at which the lane holds a truth value that is true.
    pub fn keep_set(&mut self, lane: &[i64])
        requires { EachPlace self.old (λ p. p < length lane.now) }
        ensures { self.new ≡ filter (λ p. is_set (at_place lane.now p)) self.old }
    {
        self.keep(&Set(lane));
    }

    /// Leaves the places below the limit selected.
    pub fn keep_below(&mut self, limit: u32)
        ensures { self.new ≡ filter (λ p. nat_lt p limit) self.old }
    {
        self.keep(&Below(limit));
    }

    /// Leaves the places selected that are not marked.
    pub fn keep_unmarked(&mut self, marks: &[bool])
        requires { EachPlace self.old (λ p. p < length marks.now) }
        ensures { self.new ≡ filter (λ p. not (is_marked marks.now p)) self.old }
    {
        self.keep(&Unmarked(marks));
    }

    /// How many places are selected.
    pub fn len(&self) -> usize
        ensures count { result ≡ length self.now }
        ensures few { result ≤ MAX_PLACES }
    {
        self.count
    }

    /// The places, in the order in which they are evaluated.
    pub fn as_slice(&self) -> &[u32]
        ensures value { result.now ≡ self.now }
        ensures rising { AreRising self.now }
    {
        &self.places[..self.count]
    }

    /// How many places are selected where they are known to be the first ones of the block.
    pub fn first_count(&self) -> Option<usize>
        ensures { IfSome result (λ count. self.now ≡ range_with_len 0 count) }
    {
        self.is_dense.then_some(self.count)
    }
}

/// Numbers the first places from 0 on.
fn number_places(places: &mut [u32], count: usize)
    requires room { count ≤ length places.old }
    requires few { count ≤ MAX_PLACES }
    ensures { take count places.new ≡ range_with_len 0 count }
{
    for i in 0..count {
        places[i] = i as u32;
    }
}
