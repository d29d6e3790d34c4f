// The lines of what accumulators and filters hold.
ghost use Rattle.std.specs.Prelude.{◌≡◌, ◌<◌, ◌++◌, All, IfOk, OnOk, flat_map, length, map, slice_index_or, []};
ghost use Rattle.actions.specs.{filled_seen};
ghost use Rattle.loop_pieces.specs.{nothing};
ghost use Rattle.shard_spans.specs.{cell_sum, filled_line};

use actions::{Filled, Taken};
use histograms::{CellSum, Hist1, Hist2};
use loop_pieces::{Counts, Flow};
use rdf_values::{ListOf, Memory, Scalar};
use shard_lines::ShardLine;
use std::alloc::Global;

// The values of a Take.
fn taken_values(alloc: Global, taken: &Taken<'_>) -> Result<ListOf<Scalar>, Memory>
    ensures { IfOk result (λ values. values ≡ taken.now) }
{
    let mut values = ListOf::new(alloc);
    for i in 0..taken.len() {
        values.push(taken.at(i))?;
    }
    Ok(values)
}

// The cells of a histogram of one axis.
fn flat_cells(alloc: Global, hist: &Hist1) -> Result<ListOf<CellSum>, Memory>
    ensures { IfOk result (λ cells. cells ≡ map cell_sum hist.now.cells) }
{
    let mut cells = ListOf::new(alloc);
    for i in 0..hist.cells() {
        cells.push(hist.cell(i))?;
    }
    Ok(cells)
}

// Appends a row of cells of a histogram of two axes.
fn push_row(cells: &mut ListOf<CellSum>, hist: &Hist2, i: u32) -> Result<(), Memory>
    requires { i < length hist.now.cells }
    ensures { OnOk result (cells.new ≡ cells.old ++ map cell_sum (slice_index_or hist.now.cells i [])) }
{
    let (_, columns) = hist.cells();
    for j in 0..columns {
        cells.push(hist.cell(i, j))?;
    }
    Ok(())
}

// The cells of a histogram of two axes, row by row.
fn square_cells(alloc: Global, hist: &Hist2) -> Result<ListOf<CellSum>, Memory>
    ensures { IfOk result (λ cells. cells ≡ flat_map (λ row. map cell_sum row) hist.now.cells) }
{
    let (rows, _) = hist.cells();
    let mut cells = ListOf::new(alloc);
    for i in 0..rows {
        push_row(&mut cells, hist, i)?;
    }
    Ok(cells)
}

/// The line of what an accumulator holds.
pub(crate) fn filled_line(alloc: Global, filled: &Filled<'_>) -> Result<ShardLine, Memory>
    ensures { IfOk result (λ line. line ≡ filled_line (filled_seen filled.now)) }
{
    match filled {
        Filled::Count(n) => Ok(ShardLine::Count(*n)),
        Filled::Sum(z) => Ok(ShardLine::Sum(*z)),
        Filled::Extreme(z) => Ok(ShardLine::Extreme(*z)),
        Filled::Taken(taken) => Ok(ShardLine::Take(taken_values(alloc, taken)?)),
        Filled::Number(z) => Ok(ShardLine::Number(*z)),
        Filled::Flat(hist) => Ok(ShardLine::Cells(flat_cells(alloc, hist)?)),
        Filled::Square(hist) => Ok(ShardLine::Cells(square_cells(alloc, hist)?)),
    }
}

/// The counts of named filters, by their numbers.
pub(crate) fn counts_at(
    alloc: Global,
    covered: &[u32],
    flow: &Flow,
) -> Result<ListOf<Counts>, Memory>
    requires { All (λ f. f < length flow.now) covered.now }
    ensures { IfOk result (λ counts. counts ≡ map (λ f. slice_index_or flow.now f nothing) covered.now) }
{
    let mut counts = ListOf::new(alloc);
    for f in covered {
        counts.push(flow.counts(*f))?;
    }
    Ok(counts)
}
