// The ends of clusters that begin at marks.
ghost use Rattle.std.specs.Prelude.{◌≡◌, ◌<◌, ◌-◌, IfOk, nat_eq};
ghost use Rattle.std.specs.List.{list_any};
ghost use Rattle.std.specs.List.Sorted.{IsStrictlyIncreasing};
ghost use Rattle.rdf_values.specs.{cut};
ghost use Rattle.columns.specs.{IsAhead, IsPassed, ranges_to};

use rdf_values::{ListOf, Memory};
use std::alloc::Global;

// The place of the first mark that isn't below the entry, where only the one at `next` can be.
#[tactic(auto, using(crate::proofs::Clusters::ahead_one, crate::proofs::Clusters::ahead_still))]
fn passed(marks: &[u32], next: usize, entry: u32) -> usize
    requires rising { IsStrictlyIncreasing marks.now }
    requires passed { IsPassed marks.now next entry }
    requires ahead { IsAhead marks.now next (entry - 1) }
    ensures passed { IsPassed marks.now result entry }
    ensures ahead { IsAhead marks.now result entry }
{
    if next < marks.len() && marks[next] < entry {
        next + 1
    } else {
        next
    }
}

// Whether the mark at `next`, the first that isn't below the entry, is the entry.
#[tactic(auto, using(crate::proofs::Clusters::marked_is, crate::proofs::Clusters::none_left))]
fn is_marked(marks: &[u32], next: usize, entry: u32) -> bool
    requires rising { IsStrictlyIncreasing marks.now }
    requires passed { IsPassed marks.now next entry }
    requires ahead { IsAhead marks.now next entry }
    ensures { result ≡ list_any (nat_eq entry) marks.now }
{
    next < marks.len() && marks[next] == entry
}

/// Where each cluster ends, as numbers of entries.
#[tactic(auto, using(crate::proofs::Clusters::walk_start, crate::proofs::Clusters::walk_end))]
pub(crate) fn ends(
    alloc: Global,
    entries: u32,
    size: u32,
    marks: &[u32],
) -> Result<ListOf<u32>, Memory>
    requires some { 0 < entries }
    requires rising { IsStrictlyIncreasing marks.now }
    ensures { IfOk result (λ ends. ranges_to 0 ends ≡ cut entries size marks.now) }
{
    let mut ends = ListOf::new(alloc);
    let mut lo = 0;
    let mut next = 0;
    for entry in 1..entries {
        next = passed(marks, next, entry);
        if is_marked(marks, next, entry) || entry - lo == size {
            ends.push(entry)?;
            lo = entry;
        }
    }
    ends.push(entries)?;
    Ok(ends)
}
