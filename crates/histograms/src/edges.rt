// The edges of an axis.
ghost use Rattle.std.specs.Prelude.{◌≡◌, ◌↔◌, ◌<◌, ◌-◌, ◌^◌, ◌+◌, ◌*◌, ◌≤◌, ℤ, List, length, false, IfOk};
ghost use Rattle.rdf_values.specs.{are_edges, bin, rises};
ghost use Rattle.histograms.specs.Axis.{KeepsEdges};

use crate::buckets::Buckets;
use std::alloc::Global;
use std::marker::Model;

/// Why there is no axis of some edges: `BadEdges` for fewer than two, or where they don't strictly rise.
#[derive(Clone, Copy, Debug, PartialEq, Eq)]
pub enum EdgeRefusal {
    BadEdges,
    Memory,
}

/// At least two edges that strictly rise.
#[derive(Debug, Drop)]
pub struct Edges {
    edges: Vec<i64>,
    buckets: Buckets,
}

impl Model for Edges {
    ghost Value = { List ℤ };

    ghost view = { λ a. a.edges.items };

    ghost invariant = { λ a. KeepsEdges a.edges.items a.buckets };
}

fn rises(edges: &[i64]) -> bool
    ensures { result ≡ rises edges.now }
{
    edges.is_sorted_by(|a, b| a < b)
}

impl Edges {
    /// The edges as an axis.
    pub fn new(alloc: Global, edges: &[i64]) -> Result<Edges, EdgeRefusal>
        requires few { length edges.now < 2 ^ 32 - 1 }
        ensures bad { (result ≡ Err EdgeRefusal.BadEdges) ↔ (are_edges edges.now ≡ false) }
        ensures ok { IfOk result (λ axis. axis ≡ edges.now) }
    {
        if edges.len() < 2 || !rises(edges) {
            return Err(EdgeRefusal::BadEdges);
        }
        match (Vec::from_slice(alloc, edges), Buckets::new(alloc, edges)) {
            (Ok(edges), Ok(buckets)) => Ok(Edges { edges, buckets }),
            _ => Err(EdgeRefusal::Memory),
        }
    }

    /// The number of cells: one below the first edge, one from each edge on.
    pub fn cells(&self) -> u32
        ensures { result ≡ length self.now + 1 }
    {
        self.edges.len() as u32 + 1
    }

    /// The cell of a value: 0 for underflow, then the bins in order, the last cell for overflow.
    pub fn bin(&self, value: i64) -> u32
        ensures value { result ≡ bin self.now value }
        ensures within { result ≤ length self.now }
    {
        if value < self.buckets.first {
            return 0;
        }
        if value >= self.buckets.last {
            return self.edges.len() as u32;
        }
        let start = self.buckets.start(value);
        let cell = start + u32::from(self.edges[start as usize] <= value);
        if value < self.edges[cell as usize] {
            cell
        } else {
            self.halve(value)
        }
    }

    // The cell of a value, by halving: for where more edges than one lie in its bucket. It stands apart, so that `bin` is short.
    #[inline(never)]
    fn halve(&self, value: i64) -> u32
        ensures value { result ≡ bin self.now value }
        ensures within { result ≤ length self.now }
    {
        self.edges.as_slice().partition_point(|edge| *edge <= value) as u32
    }
}

/// The place of a cell of two axes in a list row by row, where a row has so many cells.
pub fn place(row_cells: u32, i: u32, j: u32) -> usize
    ensures { result ≡ i * row_cells + j }
{
    i as usize * row_cells as usize + j as usize
}
