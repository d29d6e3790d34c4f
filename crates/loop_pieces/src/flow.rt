// Counts of named filters.
ghost use Rattle.std.specs.Prelude.{◌≡◌, ◌<◌, ◌≤◌, ◌+◌, ◌^◌, All, IfOk, Some, length, replicate, slice_get, slice_set, slice_index_or};
ghost use Rattle.loop_pieces.specs.declared.flow.Counts.{Counts};
ghost use Rattle.loop_pieces.specs.Flows.{AreCounts, HaveRoom, added, both, nothing};

use rdf_values::Memory;
use std::alloc::Global;
use std::marker::Model;

/// How many entries reached a filter, and how many of them passed it.
#[derive(Clone, Copy, Debug, PartialEq, Eq)]
pub struct Counts {
    pub all: u64,
    pub pass: u64,
}

/// The counts of the named filters, by their numbers.
#[derive(Drop)]
pub struct Flow {
    counts: Vec<Counts>,
}

impl Model for Flow {
    ghost use Rattle.std.specs.Prelude.{List, All};
    ghost use Rattle.loop_pieces.specs.declared.flow.Counts.{Counts};
    ghost use Rattle.loop_pieces.specs.Flows.{AreCounts};

    ghost Value = { List Counts };

    ghost view = { λ f. f.counts.items };

    ghost invariant = { λ f. All AreCounts f.counts.items };
}

// Adds counts, filter by filter.
fn add_counts(mine: &mut [Counts], theirs: &[Counts])
    requires same { length theirs.now ≡ length mine.old }
    requires room { HaveRoom mine.old theirs.now }
    requires mine { All AreCounts mine.old }
    requires theirs { All AreCounts theirs.now }
    ensures sum { mine.new ≡ added mine.old theirs.now }
    ensures counts { All AreCounts mine.new }
{
    for i in 0..mine.len() {
        let here = mine[i];
        let there = theirs[i];
        mine[i] = Counts {
            all: here.all + there.all,
            pass: here.pass + there.pass,
        };
    }
}

impl Flow {
    /// Nothing is noted of so many filters.
    pub fn new(alloc: Global, filters: u32) -> Result<Flow, Memory>
        ensures { IfOk result (λ flow. flow ≡ replicate filters nothing) }
    {
        let mut counts = Vec::new(alloc);
        for _ in 0..filters {
            counts.push(Counts { all: 0, pass: 0 })?;
        }
        Ok(Flow { counts })
    }

    /// So many entries more reached the filter, and so many of them passed it.
    pub fn note_counts(&mut self, filter: u32, more: Counts)
        requires filter { filter < length self.old }
        requires counts { AreCounts more }
        requires room { (slice_index_or self.old filter nothing).all + more.all ≤ 2 ^ 32 }
        ensures { self.new ≡ slice_set self.old filter (both (slice_index_or self.old filter nothing) more) }
    {
        let counts = &mut self.counts[filter as usize];
        counts.all += more.all;
        counts.pass += more.pass;
    }

    /// Takes in all that was noted of the same filters elsewhere.
    pub fn merge(&mut self, other: &Flow)
        requires same { length other.now ≡ length self.old }
        requires room { HaveRoom self.old other.now }
        ensures { self.new ≡ added self.old other.now }
    {
        add_counts(self.counts.as_mut_slice(), other.counts.as_slice());
    }

    /// What was noted of a filter.
    pub fn counts(&self, filter: u32) -> Counts
        requires { filter < length self.now }
        ensures { slice_get self.now filter ≡ Some result }
    {
        self.counts[filter as usize]
    }
}
