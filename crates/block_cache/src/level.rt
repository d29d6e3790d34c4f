// What one level of nesting needs while a site is filled.
ghost use Rattle.std.specs.Prelude.{◌≡◌, ◌<◌, not, true, nat_eq, length, slice_index, All};
ghost use Rattle.std.specs.List.{filter};
ghost use Rattle.expr_lanes.specs.{EachPlace, is_in, is_marked, Stopped as StoppedPlace};
ghost use Rattle.block_cache.specs.{need_at, noted_at, noted_in};

use arrayvec::ArrayVec;
use expr_eval::ScalarStop;
use expr_lanes::{MAX_PLACES, Selection, Stopped};

/// The places that still lack the site's value with the version that each of them waits for, and those that are dealt with together.
#[derive(Drop)]
pub struct Level {
    pub(crate) stops: ArrayVec<Stopped, MAX_PLACES>,
    pub(crate) lacking: Selection,
    pub(crate) group: Selection,
    pub(crate) needs: [u32; MAX_PLACES],
    pub(crate) others: [bool; MAX_PLACES],
}

impl Level {
    /// A level that nothing was filled with yet.
    pub fn new() -> Level {
        Level {
            stops: ArrayVec::new(),
            lacking: Selection::new(),
            group: Selection::new(),
            needs: [0; MAX_PLACES],
            others: [false; MAX_PLACES],
        }
    }

    /// Groups the lacking places that wait for the same version as the first of them, and answers that version.
    #[tactic(auto, using(expr_lanes::proofs::Composed::filter_alike, crate::proofs::LaneSteps::twice_not))]
    pub(crate) fn next_group(&mut self) -> u32
        requires some { 0 < length self.old.lacking }
        requires inside { EachPlace self.old.lacking (λ p. p < MAX_PLACES) }
        ensures group { self.new.group ≡ filter (λ p. nat_eq (need_at self.old.needs p) result) self.old.lacking }
        ensures first { is_in (slice_index self.old.lacking 0) self.new.group ≡ true }
        ensures lacking { self.new.lacking ≡ self.old.lacking }
        ensures needs { self.new.needs ≡ self.old.needs }
    {
        let places = self.lacking.as_slice();
        let version = self.needs[places[0] as usize];
        mark_others(places, &self.needs, version, &mut self.others);
        self.group.copy_from(&self.lacking);
        self.group.keep_unmarked(&self.others);
        version
    }
}

/// Marks the places that wait for another version.
fn mark_others(places: &[u32], needs: &[u32], version: u32, others: &mut [bool])
    requires needs { EachPlace places.now (λ p. p < length needs.now) }
    requires others { EachPlace places.now (λ p. p < length others.old) }
    ensures { EachPlace places.now (λ p. is_marked others.new p ≡ not (nat_eq (need_at needs.now p) version)) }
{
    for i in 0..places.len() {
        let place = places[i] as usize;
        others[place] = needs[place] != version;
    }
}

/// Notes which version a place waits for, where it stopped at one.
#[inline(always)]
fn note_need(stop: Stopped, needs: &mut [u32])
    requires { stop.place < length needs.old }
    ensures { needs.new ≡ noted_at needs.old stop.place stop.stop }
{
    if let ScalarStop::Need(version) = stop.stop {
        needs[stop.place as usize] = version;
    }
}

/// Notes for each place that stopped at a missing version which one it is.
#[tactic(auto, using(std::proofs::lemmas::List::Sums::fold_more, std::proofs::lemmas::List::take_all))]
pub(crate) fn note_needs(stops: &[Stopped], needs: &mut [u32])
    requires { All (λ (s : StoppedPlace). s.place < length needs.old) stops.now }
    ensures { needs.new ≡ noted_in needs.old stops.now }
{
    for i in 0..stops.len() {
        note_need(stops[i], needs);
    }
}
