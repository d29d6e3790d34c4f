// Histograms of one axis.
ghost use Rattle.std.specs.Prelude.{◌≡◌, ◌<◌, ◌≤◌, ◌+◌, ◌∷◌, ◌++◌, [], List, IfOk, length, map, slice_get, Some};

use crate::cell_sum::{self, CellSum};
use crate::edges::Edges;
use rdf_values::Memory;
use std::alloc::Global;
use std::marker::Model;

/// The most fills that a histogram takes: no sum of so many squares leaves 128 bits.
pub const MOST_FILLS: u64 = 1_099_511_627_776;

/// A histogram of one axis: one cell below the first edge, and one from each edge on.
#[derive(Debug, Drop)]
pub struct Hist1 {
    x: Edges,
    fills: u64,
    cells: Vec<CellSum>,
}

impl Model for Hist1 {
    ghost use Rattle.std.specs.Prelude.{map};
    ghost use Rattle.histograms.specs.Cells.{cell_seen};
    ghost use Rattle.histograms.specs.OneAxis.{Flat, KeepsFlat};

    ghost Value = { Flat };

    ghost view = { λ h. record { edges = h.x; fills = h.fills; cells = map cell_seen h.cells.items } };

    ghost invariant = { λ h. KeepsFlat h.x h.fills h.cells.items };
}

impl Hist1 {
    ghost use Rattle.std.specs.Prelude.{◌≡◌, ◌<◌, ◌≤◌, ◌+◌, ◌∷◌, ◌++◌, [], List, IfOk, length, slice_get, Some};
    ghost use Rattle.rdf_values.specs.{Item};
    ghost use Rattle.rdf_values.specs.declared.results.Item.TheVariants.{Point};
    ghost use Rattle.histograms.specs.Cells.{IsWeight, cell_seen};
    ghost use Rattle.histograms.specs.OneAxis.{HasFilled, flat_cells};

    /// A histogram without fills.
    pub fn new(alloc: Global, x: Edges) -> Result<Hist1, Memory>
        ensures { IfOk result (λ hist. hist ≡ record { edges = x; fills = 0; cells = flat_cells x [] }) }
    {
        let cells = vec![in alloc; CellSum::ZERO; x.cells() as usize]?;
        Ok(Hist1 { x, fills: 0, cells })
    }

    /// Adds a weight to the cell of a value.
    pub fn fill(&mut self, x: i64, weight: i64)
        requires weight { IsWeight weight }
        requires room { self.old.fills < MOST_FILLS }
        ensures edges { self.new.edges ≡ self.old.edges }
        ensures fills { self.new.fills ≡ self.old.fills + 1 }
        ensures filled { (points : List Item) → HasFilled self.old points → HasFilled self.new (points ++ Point x weight ∷ []) }
    {
        let place = self.x.bin(x) as usize;
        self.cells[place] = self.cells[place].with(weight);
        self.fills += 1;
    }

    /// Adds all weights of another histogram of the same edges.
    pub fn merge(&mut self, other: &Hist1)
        requires edges { other.now.edges ≡ self.old.edges }
        requires room { self.old.fills + other.now.fills ≤ MOST_FILLS }
        ensures edges { self.new.edges ≡ self.old.edges }
        ensures fills { self.new.fills ≡ self.old.fills + other.now.fills }
        ensures filled { (points more : List Item) → HasFilled self.old points → HasFilled other.now more → HasFilled self.new (points ++ more) }
    {
        cell_sum::add_all(self.cells.as_mut_slice(), other.cells.as_slice());
        self.fills += other.fills;
    }

    /// The number of cells: that of the edges plus one.
    pub fn cells(&self) -> u32
        ensures edges { result ≡ length self.now.edges + 1 }
        ensures cells { result ≡ length self.now.cells }
    {
        self.x.cells()
    }

    /// A cell by its place: 0 for underflow, then the bins in order, then overflow.
    pub fn cell(&self, i: u32) -> CellSum
        requires { i < length self.now.cells }
        ensures { slice_get self.now.cells i ≡ Some (cell_seen result) }
    {
        self.cells[i as usize]
    }
}
