// Marks of the places of a block.
ghost use Rattle.std.specs.Prelude.{◌≡◌, ◌<◌, ◌≤◌, ◌+◌, ℕ, ◌||◌, not, true, false, length, count_by, IfOk};
ghost use Rattle.std.specs.List.{filter, range_with_len};
ghost use Rattle.expr_lanes.specs.{AreRising, EachPlace, HasMarks, is_in, is_known, is_marked};
ghost use Rattle.block_cache.specs.Values.{AreWrittenMarks, marked_to};

use expr_lanes::{KnownPlaces, Selection};
use rdf_values::Memory;
use std::alloc::Global;
use std::marker::Model;

/// How much of a block is marked: nothing, some places or any, or all of them.
#[derive(Clone, Copy, Debug)]
pub enum Extent {
    Nothing,
    Some,
    All,
}

/// A mark for each place of a block. They are written only where some places are marked and others may not be: nearly always nothing
/// or all of a block is, and to write a mark costs as much as to evaluate a place.
#[derive(Drop)]
pub(crate) struct BlockMarks {
    count: usize,
    written: Vec<bool>,
    extent: Extent,
}

impl Model for BlockMarks {
    ghost use Rattle.block_cache.specs.Values.{AreWrittenMarks, MarksView, marks_of};

    ghost Value = { MarksView };

    ghost view = { λ m. record { count = m.count; marks = marks_of m.extent m.count m.written.items } };

    ghost invariant = { λ m. AreWrittenMarks m.extent m.count m.written.items };
}

impl BlockMarks {
    /// The marks of a block of no places, with room for so many.
    pub(crate) fn new(alloc: Global, room: usize) -> Result<BlockMarks, Memory>
        ensures count { IfOk result (λ m. m.count ≡ 0) }
        ensures long { IfOk result (λ m. length m.marks ≡ room) }
        ensures none { IfOk result (λ m. (p : ℕ) → is_marked m.marks p ≡ false) }
    {
        let written = vec![in alloc; false; room]?;
        Ok(BlockMarks {
            count: 0,
            written,
            extent: Extent::Nothing,
        })
    }

    /// Begins a block of so many places, none of which is marked.
    #[tactic(auto, using(crate::proofs::LaneSteps::written, crate::proofs::LaneSteps::long_seen))]
    pub(crate) fn begin(&mut self, count: usize)
        requires { count ≤ length self.old.marks }
        ensures count { self.new.count ≡ count }
        ensures long { length self.new.marks ≡ length self.old.marks }
        ensures none { (p : ℕ) → is_marked self.new.marks p ≡ false }
    {
        clear(self.extent, self.count, &mut self.written);
        self.count = count;
        self.extent = Extent::Nothing;
    }

    /// Marks the selected places.
    #[tactic(auto, using(crate::proofs::LaneSteps::still_marked, crate::proofs::LaneSteps::all_seen, crate::proofs::LaneSteps::nothing_is, crate::proofs::LaneSteps::marked_long, crate::proofs::LaneSteps::long_seen, crate::proofs::LaneSteps::whole_marked, crate::proofs::LaneSteps::whole_newly))]
    pub(crate) fn mark(&mut self, selection: &Selection)
        requires { EachPlace selection.now (λ p. p < self.old.count) }
        ensures count { self.new.count ≡ self.old.count }
        ensures long { length self.new.marks ≡ length self.old.marks }
        ensures marked { (p : ℕ) → is_marked self.new.marks p ≡ (is_in p selection.now || is_marked self.old.marks p) }
        ensures newly { count_by (λ b. b) self.new.marks ≡ count_by (λ b. b) self.old.marks + count_by (λ p. not (is_marked self.old.marks p)) selection.now }
    {
        if let Extent::All = self.extent {
            return;
        }
        if let Extent::Nothing = self.extent {
            if selection.len() == 0 {
                return;
            }
            if is_whole(selection, self.count) {
                self.extent = Extent::All;
                return;
            }
        }
        mark(selection, &mut self.written);
        self.extent = Extent::Some;
    }

    /// Leaves the places selected that aren't marked.
    #[tactic(auto, using(expr_lanes::proofs::Composed::filter_all, crate::proofs::LaneSteps::nothing_seen, crate::proofs::LaneSteps::filter_none, crate::proofs::LaneSteps::all_seen))]
    pub(crate) fn keep_unmarked(&self, selection: &mut Selection)
        requires { EachPlace selection.old (λ p. p < self.now.count) }
        ensures { selection.new ≡ filter (λ p. not (is_marked self.now.marks p)) selection.old }
    {
        match self.extent {
            Extent::Nothing => {}
            Extent::Some => selection.keep_unmarked(&self.written),
            Extent::All => selection.select_first(0),
        }
    }

    /// Whether each selected place is marked.
    #[tactic(auto, using(crate::proofs::LaneSteps::all_seen))]
    pub(crate) fn has_all(&self, selection: &Selection) -> bool
        requires { EachPlace selection.now (λ p. p < self.now.count) }
        ensures marked { result ≡ true → EachPlace selection.now (λ p. is_marked self.now.marks p ≡ true) }
        ensures exact { EachPlace selection.now (λ p. is_marked self.now.marks p ≡ true) → result ≡ true }
    {
        match self.extent {
            Extent::All => true,
            Extent::Nothing | Extent::Some => are_marked(selection, &self.written),
        }
    }

    /// Whether a place is marked.
    #[tactic(auto, using(crate::proofs::LaneSteps::all_seen))]
    pub(crate) fn has(&self, place: u32) -> bool
        requires { place < self.now.count }
        ensures { result ≡ is_marked self.now.marks place }
    {
        match self.extent {
            Extent::All => true,
            Extent::Nothing | Extent::Some => self.written[place as usize],
        }
    }

    /// The places, as those at which a column is known.
    #[tactic(auto, using(crate::proofs::LaneSteps::all_seen))]
    pub(crate) fn known(&self) -> KnownPlaces<'_>
        ensures marks { HasMarks self.now.count result }
        ensures known { (p : ℕ) → p < self.now.count → is_known result p ≡ is_marked self.now.marks p }
    {
        match self.extent {
            Extent::All => KnownPlaces::Everywhere,
            Extent::Nothing | Extent::Some => KnownPlaces::Marked(self.written.as_slice()),
        }
    }
}

/// Takes away what marks are written of a block.
fn clear(extent: Extent, count: usize, written: &mut [bool])
    requires { AreWrittenMarks extent count written.old }
    ensures { (p : ℕ) → is_marked written.new p ≡ false }
{
    if let Extent::Some = extent {
        for i in 0..count {
            written[i] = false;
        }
    }
}

/// Whether all places of a block are selected.
fn is_whole(selection: &Selection, count: usize) -> bool
    ensures { result ≡ true → selection.now ≡ range_with_len 0 count }
{
    selection.first_count() == Some(count)
}

/// Marks the places of a list.
#[tactic(auto, using(crate::proofs::LaneSteps::marked_to_none, crate::proofs::LaneSteps::marked_all, std::proofs::lemmas::List::take_all, crate::proofs::LaneSteps::newly_all))]
fn mark_listed(places: &[u32], marks: &mut [bool])
    requires inside { EachPlace places.now (λ p. p < length marks.old) }
    requires rising { AreRising places.now }
    ensures marked { (p : ℕ) → is_marked marks.new p ≡ (is_in p places.now || is_marked marks.old p) }
    ensures newly { count_by (λ b. b) marks.new ≡ count_by (λ b. b) marks.old + count_by (λ p. not (is_marked marks.old p)) places.now }
{
    for i in 0..places.len() {
        marks[places[i] as usize] = true;
    }
}

/// Marks the first places.
#[tactic(auto, using(crate::proofs::LaneSteps::marked_set))]
fn mark_first(count: usize, marks: &mut [bool])
    requires { count ≤ length marks.old }
    ensures { marks.new ≡ marked_to count marks.old }
{
    for i in 0..count {
        marks[i] = true;
    }
}

/// Marks the selected places.
pub(crate) fn mark(selection: &Selection, marks: &mut [bool])
    requires { EachPlace selection.now (λ p. p < length marks.old) }
    ensures marked { (p : ℕ) → is_marked marks.new p ≡ (is_in p selection.now || is_marked marks.old p) }
    ensures newly { count_by (λ b. b) marks.new ≡ count_by (λ b. b) marks.old + count_by (λ p. not (is_marked marks.old p)) selection.now }
{
    match selection.first_count() {
        Some(count) => mark_first(count, marks),
        None => mark_listed(selection.as_slice(), marks),
    }
}

/// Whether each selected place is marked.
#[tactic(auto, using(std::proofs::lemmas::List::take_all, expr_lanes::proofs::Composed::is_in_at, expr_lanes::proofs::Composed::in_more, std::proofs::lemmas::List::take_more))]
pub(crate) fn are_marked(selection: &Selection, marks: &[bool]) -> bool
    requires { EachPlace selection.now (λ p. p < length marks.now) }
    ensures marked { result ≡ true → EachPlace selection.now (λ p. is_marked marks.now p ≡ true) }
    ensures exact { EachPlace selection.now (λ p. is_marked marks.now p ≡ true) → result ≡ true }
{
    let places = selection.as_slice();
    for place in places {
        if !marks[*place as usize] {
            return false;
        }
    }
    true
}
