// How entries are cut into clusters.
ghost use Rattle.std.specs.Prelude.{◌≡◌, ◌≤◌, ◌<◌, All, IfOk, Some, length, slice_get};
ghost use Rattle.rdf_values.specs.{cut, even_cut, Lead};
ghost use Rattle.columns.specs.{ranges_to};
ghost use Rattle.columns.specs.Views.{AreCuts, Holds, IsInOne};

use crate::marked::ends;
use rdf_values::{ListOf, Marks, Memory, Span};
use std::alloc::Global;
use std::marker::Model;

/// Ranges of one size are computed; of ranges that begin at marks the ends are kept.
#[derive(Drop)]
pub(crate) enum Ranges {
    Even,
    Marked(ListOf<u32>),
}

/// So many entries, cut at the marks and into clusters of at most one size between them.
#[derive(Drop)]
pub struct Cuts {
    entries: u32,
    size: u32,
    marks: ListOf<u32>,
    ranges: Ranges,
}

impl Model for Cuts {
    ghost use Rattle.columns.specs.Views.{CutsView, HoldCuts};

    ghost Value = { CutsView };

    ghost view = { λ c. record { entries = c.entries; size = c.size; marks = c.marks } };

    ghost invariant = { λ c. HoldCuts (record { entries = c.entries; size = c.size; marks = c.marks }) c.ranges };
}

/// The entries, cut at the marks and into clusters of at most that size between them. Without marks no memory is taken.
pub fn cut(alloc: Global, entries: u32, size: u32, marks: &Marks) -> Result<Cuts, Memory>
    requires few { entries ≤ 1000000 }
    requires some { 1 ≤ size }
    requires within { All (λ m. m < entries) marks.now }
    ensures { IfOk result (λ cuts. cuts ≡ record { entries = entries; size = size; marks = marks.now }) }
{
    if marks.len() == 0 {
        return Ok(Cuts {
            entries,
            size,
            marks: ListOf::new(alloc),
            ranges: Ranges::Even,
        });
    }
    let ends = ends(alloc, entries, size, marks.as_slice())?;
    Ok(Cuts {
        entries,
        size,
        marks: ListOf::from_vec(Vec::from_slice(alloc, marks.as_slice())?),
        ranges: Ranges::Marked(ends),
    })
}

/// A law: the clusters' ranges lead from 0 to the number of entries, so that each entry is in one of them and no other.
pub fn lead_to_the_end(entries: u32, size: u32, marks: &Marks)
    ensures leads { Lead 0 entries (cut entries size marks.now) }
    ensures once { IsInOne (cut entries size marks.now) 0 entries }
{}

// The entries of a cluster, where all clusters but the last have one size.
fn even_range(entries: u32, size: u32, cluster: u32) -> Span
    requires few { entries ≤ 1000000 }
    requires some { 1 ≤ size }
    requires there { cluster < length (even_cut entries size) }
    ensures { slice_get (even_cut entries size) cluster ≡ Some result }
{
    let lo = cluster * size;
    let hi = lo + size.min(entries - lo);
    Span { lo, hi }
}

// The entries of a cluster, where the clusters end there.
#[tactic(auto, using(crate::proofs::Clusters::first_range, crate::proofs::Clusters::next_range))]
fn range_at(ends: &[u32], place: usize) -> Span
    requires { place < length ends.now }
    ensures { slice_get (ranges_to 0 ends.now) place ≡ Some result }
{
    let lo = if place == 0 { 0 } else { ends[place - 1] };
    Span {
        lo,
        hi: ends[place],
    }
}

impl Cuts {
    /// How many entries are cut.
    pub fn entries(&self) -> u32
        ensures value { result ≡ self.now.entries }
        ensures valid { AreCuts self.now }
    {
        self.entries
    }

    /// How many clusters there are.
    #[tactic(auto, using(crate::proofs::Clusters::few_ends, crate::proofs::Clusters::as_many))]
    pub fn count(&self) -> u32
        ensures value { result ≡ length (cut self.now.entries self.now.size self.now.marks) }
        ensures valid { AreCuts self.now }
    {
        match &self.ranges {
            Ranges::Even => self.entries.div_ceil(self.size),
            Ranges::Marked(ends) => ends.len() as u32,
        }
    }

    /// The entries of a cluster.
    #[tactic(auto, using(crate::proofs::Clusters::is_even, crate::proofs::Clusters::as_many))]
    pub fn range(&self, cluster: u32) -> Span
        requires { cluster < length (cut self.now.entries self.now.size self.now.marks) }
        ensures { slice_get (cut self.now.entries self.now.size self.now.marks) cluster ≡ Some result }
    {
        match &self.ranges {
            Ranges::Even => even_range(self.entries, self.size, cluster),
            Ranges::Marked(ends) => range_at(ends.as_slice(), cluster as usize),
        }
    }

    /// The cluster that holds an entry.
    #[tactic(auto, using(crate::proofs::Clusters::few_ends, crate::proofs::Clusters::is_even, crate::proofs::Clusters::even_holds, crate::proofs::Clusters::div_low, crate::proofs::Clusters::div_high))]
    pub fn cluster_of(&self, entry: u32) -> u32
        requires { entry < self.now.entries }
        ensures { Holds (cut self.now.entries self.now.size self.now.marks) entry result }
    {
        match &self.ranges {
            Ranges::Even => entry / self.size,
            Ranges::Marked(ends) => ends.as_slice().partition_point(|end| *end <= entry) as u32,
        }
    }
}
