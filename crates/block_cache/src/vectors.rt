// The vectors of a block.
ghost use Rattle.std.specs.Prelude.{◌≡◌, ◌++◌, [], ◌∷◌, pos, length, nat_abs, slice_index_or, IfOk, OnOk};
ghost use Rattle.block_cache.specs.Values.{AreKept};

use rdf_values::Memory;
use std::alloc::Global;
use std::marker::Model;

/// Where the cells of a vector stand: from one on to below another.
#[derive(Clone, Copy, Debug)]
struct CellRange {
    from: usize,
    to: usize,
}

/// Vectors in the order in which they were pushed, with their cells one after another.
#[derive(Drop)]
pub(crate) struct Vectors {
    ranges: Vec<CellRange>,
    cells: Vec<i64>,
}

impl Model for Vectors {
    ghost use Rattle.std.specs.Prelude.{ℤ, List, map, All};
    ghost use Rattle.block_cache.specs.Values.{cells_in, AreThere};

    ghost Value = { List (List ℤ) };

    ghost view = { λ v. map (cells_in v.cells.items) v.ranges.items };

    ghost invariant = { λ v. All (AreThere v.cells.items) v.ranges.items };
}

impl Vectors {
    /// No vectors.
    pub(crate) fn new(alloc: Global) -> Vectors
        ensures { result ≡ [] }
    {
        Vectors {
            ranges: Vec::new(alloc),
            cells: Vec::new(alloc),
        }
    }

    /// Takes all vectors away, and keeps their memory.
    pub(crate) fn clear(&mut self)
        ensures { self.new ≡ [] }
    {
        self.ranges.clear();
        self.cells.clear();
    }

    /// Appends a vector, and answers its number.
    #[tactic(auto, using(crate::proofs::LaneSteps::kept_all, crate::proofs::LaneSteps::grown, crate::proofs::LaneSteps::pushed))]
    pub(crate) fn push(&mut self, vector: &[i64]) -> Result<i64, Memory>
        ensures pushed { OnOk result (self.new ≡ self.old ++ vector.now ∷ []) }
        ensures number { IfOk result (λ n. n ≡ pos (length self.old)) }
        ensures kept { AreKept self.old self.new }
    {
        let number = self.ranges.len();
        let from = self.cells.len();
        self.cells.extend_from_slice(vector)?;
        let to = self.cells.len();
        self.ranges.push(CellRange { from, to })?;
        Ok(number as i64)
    }

    /// The vector of a number, or none of its cells where it isn't there.
    pub(crate) fn at(&self, number: i64) -> &[i64]
        ensures { result.now ≡ slice_index_or self.now (nat_abs number) [] }
    {
        match self.ranges.get(number.unsigned_abs() as usize) {
            Some(range) => &self.cells[range.from..range.to],
            None => &self.cells[..0],
        }
    }
}
