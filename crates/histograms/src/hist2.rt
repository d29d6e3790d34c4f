// Histograms of two axes.
ghost use Rattle.std.specs.Prelude.{◌≡◌};

use crate::cell_sum::{self, CellSum};
use crate::edges::{Edges, place};
use crate::hist1::MOST_FILLS;
use rdf_values::Memory;
use std::alloc::Global;
use std::marker::Model;

/// A histogram of two axes: for each cell of the first axis the cells of the second.
#[derive(Debug, Drop)]
pub struct Hist2 {
    x: Edges,
    y: Edges,
    fills: u64,
    /// Row by row: the cells of the second axis for each cell of the first.
    cells: Vec<CellSum>,
}

impl Model for Hist2 {
    ghost use Rattle.std.specs.Prelude.{map};
    ghost use Rattle.histograms.specs.Cells.{cell_seen};
    ghost use Rattle.histograms.specs.TwoAxes.{KeepsSquare, Square, rows_on};

    ghost Value = { Square };

    ghost view = { λ h. record { x_edges = h.x; y_edges = h.y; fills = h.fills; cells = rows_on h.x h.y (map cell_seen h.cells.items) } };

    ghost invariant = { λ h. KeepsSquare h.x h.y h.fills h.cells.items };
}

impl Hist2 {
    ghost use Rattle.std.specs.Prelude.{◌≡◌, ◌<◌, ◌≤◌, ◌+◌, ◌∷◌, ◌++◌, [], ℕ, List, IfOk, length, slice_get, slice_index_or, Some};
    ghost use Rattle.rdf_values.specs.{Item};
    ghost use Rattle.rdf_values.specs.declared.results.Item.TheVariants.{Point2};
    ghost use Rattle.histograms.specs.Cells.{IsWeight, cell_seen};
    ghost use Rattle.histograms.specs.TwoAxes.{HasFilled2, square_cells};

    /// A histogram without fills.
    pub fn new(alloc: Global, x: Edges, y: Edges) -> Result<Hist2, Memory>
        ensures { IfOk result (λ hist. hist ≡ record { x_edges = x; y_edges = y; fills = 0; cells = square_cells x y [] }) }
    {
        let size = x.cells() as usize * y.cells() as usize;
        let cells = vec![in alloc; CellSum::ZERO; size]?;
        Ok(Hist2 {
            x,
            y,
            fills: 0,
            cells,
        })
    }

    /// Adds a weight to the cell of a pair of values.
    #[inline(always)]
    #[tactic(auto, using(crate::proofs::FillingPairs::place_within, crate::proofs::Filling::fits_bounded, crate::proofs::Filling::bounded_with))]
    pub fn fill(&mut self, x: i64, y: i64, weight: i64)
        requires weight { IsWeight weight }
        requires room { self.old.fills < MOST_FILLS }
        ensures x_edges { self.new.x_edges ≡ self.old.x_edges }
        ensures y_edges { self.new.y_edges ≡ self.old.y_edges }
        ensures fills { self.new.fills ≡ self.old.fills + 1 }
        ensures filled { (points : List Item) → HasFilled2 self.old points → HasFilled2 self.new (points ++ Point2 x y weight ∷ []) }
    {
        let at = place(self.y.cells(), self.x.bin(x), self.y.bin(y));
        self.cells[at] = self.cells[at].with(weight);
        self.fills += 1;
    }

    /// Adds all weights of another histogram of the same edges.
    pub fn merge(&mut self, other: &Hist2)
        requires x_edges { other.now.x_edges ≡ self.old.x_edges }
        requires y_edges { other.now.y_edges ≡ self.old.y_edges }
        requires room { self.old.fills + other.now.fills ≤ MOST_FILLS }
        ensures x_edges { self.new.x_edges ≡ self.old.x_edges }
        ensures y_edges { self.new.y_edges ≡ self.old.y_edges }
        ensures fills { self.new.fills ≡ self.old.fills + other.now.fills }
        ensures filled { (points more : List Item) → HasFilled2 self.old points → HasFilled2 other.now more → HasFilled2 self.new (points ++ more) }
    {
        cell_sum::add_all(self.cells.as_mut_slice(), other.cells.as_slice());
        self.fills += other.fills;
    }

    /// The numbers of cells of the first and of the second axis.
    pub fn cells(&self) -> (u32, u32)
        ensures x_edges { result.0 ≡ length self.now.x_edges + 1 }
        ensures y_edges { result.1 ≡ length self.now.y_edges + 1 }
        ensures rows { result.0 ≡ length self.now.cells }
        ensures columns { (i : ℕ) → i < result.0 → length (slice_index_or self.now.cells i []) ≡ result.1 }
    {
        (self.x.cells(), self.y.cells())
    }

    /// A cell by its places on the axes: 0 for underflow, then the bins in order, then overflow.
    pub fn cell(&self, i: u32, j: u32) -> CellSum
        requires x { i < length self.now.cells }
        requires y { j < length (slice_index_or self.now.cells i []) }
        ensures { slice_get (slice_index_or self.now.cells i []) j ≡ Some (cell_seen result) }
    {
        let at = place(self.y.cells(), i, j);
        self.cells[at]
    }
}
