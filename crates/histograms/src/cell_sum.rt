// One cell of a histogram.
ghost use Rattle.std.specs.Prelude.{◌≡◌, ◌<◌, ℕ, ◌+ℤ◌, ◌*ℤ◌, FitsSigned, length, slice_index_or};
ghost use Rattle.std.specs.Int.{w128};
ghost use Rattle.histograms.specs.{CellSum, FitTogether, together, with_weight};

/// The sum of the weights in a cell, and the sum of their squares.
#[derive(Clone, Copy, Debug, PartialEq, Eq)]
pub struct CellSum {
    pub sum: i128,
    pub squares: i128,
}

impl CellSum {
    /// No weight.
    pub const ZERO: CellSum = CellSum { sum: 0, squares: 0 };

    /// The cell with one more weight.
    pub fn with(self, weight: i64) -> CellSum
        requires sum { FitsSigned w128 (self.sum +ℤ weight) }
        requires squares { FitsSigned w128 (self.squares +ℤ weight *ℤ weight) }
        ensures { result ≡ with_weight self weight }
    {
        let weight = weight as i128;
        CellSum {
            sum: self.sum + weight,
            squares: self.squares + weight * weight,
        }
    }

    /// The cell with all weights of another.
    pub fn plus(self, more: CellSum) -> CellSum
        requires { FitTogether self more }
        ensures { result ≡ together self more }
    {
        CellSum {
            sum: self.sum + more.sum,
            squares: self.squares + more.squares,
        }
    }
}

/// Adds to each cell the one at its place in another list.
pub fn add_all(cells: &mut [CellSum], more: &[CellSum])
    requires same_length { length more.now ≡ length cells.old }
    requires fit { (k : ℕ) (d : CellSum) → k < length cells.old → FitTogether (slice_index_or cells.old k d) (slice_index_or more.now k d) }
    ensures { (k : ℕ) (d : CellSum) → k < length cells.old → slice_index_or cells.new k d ≡ together (slice_index_or cells.old k d) (slice_index_or more.now k d) }
{
    for i in 0..cells.len() {
        cells[i] = cells[i].plus(more[i]);
    }
}
