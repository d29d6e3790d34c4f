// The cells of histograms, by the sums that a line holds.
ghost use Rattle.std.specs.Prelude.{◌≡◌, ◌≤◌, ◌++◌, [], OnOk, Some, drop, length, map, suc, take};
ghost use Rattle.histograms.specs.{cell_seen};
ghost use Rattle.rdf_model.specs.{cell_lines, cell_names, plane_lines};
ghost use Rattle.result_text.specs.{behind, bin_name, line_at, lines_on, name_at, plane_at};
ghost use Rattle.merged_text.specs.{rows_of};

use histograms::CellSum;
use rdf_values::{Memory, Text};
use result_text::numbers::{put_number, put_sum};
use std::alloc::Global;

// Appends the name of the cell between two edges.
fn put_bin(alloc: Global, text: &mut Text, lo: i64, hi: i64) -> Result<(), Memory>
    ensures { OnOk result (text.new ≡ text.old ++ bin_name lo hi) }
{
    text.push(b'[')?;
    put_number(alloc, text, lo)?;
    text.push(b',')?;
    put_number(alloc, text, hi)?;
    text.push(b')')
}

// Appends the name of an axis's cell.
fn put_cell_name(alloc: Global, text: &mut Text, edges: &[i64], i: usize) -> Result<(), Memory>
    requires { i ≤ length edges.now }
    ensures { OnOk result (Some text.new ≡ behind text.old (name_at edges.now i)) }
{
    if i == 0 {
        return text.extend(b"under");
    }
    if i == edges.len() {
        return text.extend(b"over");
    }
    put_bin(alloc, text, edges[i - 1], edges[i])
}

// Appends the line of a cell, behind what is put before its name; a place that the axis doesn't have has no line.
fn put_cell(
    alloc: Global,
    text: &mut Text,
    before: &[u8],
    edges: &[i64],
    i: usize,
    cell: CellSum,
) -> Result<(), Memory>
    ensures { OnOk result (text.new ≡ text.old ++ line_at before.now edges.now i (cell_seen cell)) }
{
    if i > edges.len() {
        return Ok(());
    }
    text.extend(b"  ")?;
    text.extend(before)?;
    put_cell_name(alloc, text, edges, i)?;
    text.push(b' ')?;
    put_sum(alloc, text, cell.sum)?;
    text.push(b' ')?;
    put_sum(alloc, text, cell.squares)?;
    text.push(b'\n')
}

// Appends the lines of the cells of one axis, with a text before each name.
fn put_row(
    alloc: Global,
    text: &mut Text,
    before: &[u8],
    edges: &[i64],
    cells: &[CellSum],
) -> Result<(), Memory>
    ensures { OnOk result (text.new ≡ text.old ++ lines_on before.now edges.now 0 (map cell_seen cells.now)) }
{
    for (i, cell) in cells.iter().enumerate() {
        put_cell(alloc, text, before, edges, i, *cell)?;
    }
    Ok(())
}

/// Appends the lines of the cells of a histogram of one axis.
pub(crate) fn put_flat(
    alloc: Global,
    text: &mut Text,
    edges: &[i64],
    cells: &[CellSum],
) -> Result<(), Memory>
    ensures { OnOk result (text.new ≡ text.old ++ cell_lines (cell_names edges.now) (map cell_seen cells.now)) }
{
    put_row(alloc, text, &[], edges, cells)
}

// Appends the lines of the cells of the second axis for a cell of the first.
fn put_named_row(
    alloc: Global,
    text: &mut Text,
    x_edges: &[i64],
    y_edges: &[i64],
    i: usize,
    cells: &[CellSum],
) -> Result<(), Memory>
    requires { i ≤ length x_edges.now }
    ensures { OnOk result (text.new ≡ text.old ++ plane_at x_edges.now y_edges.now i (map cell_seen cells.now)) }
{
    let mut before = Text::new(alloc);
    put_cell_name(alloc, &mut before, x_edges, i)?;
    before.push(b' ')?;
    put_row(alloc, text, before.as_bytes(), y_edges, cells)
}

// The first so many items, and those behind them, where there are so many; and otherwise all.
fn parted(cells: &[CellSum], width: usize) -> (&[CellSum], &[CellSum])
    ensures first { result.0.now ≡ take width cells.now }
    ensures rest { result.1.now ≡ drop width cells.now }
{
    if width <= cells.len() {
        cells.split_at(width)
    } else {
        (cells, &[])
    }
}

/// Appends the lines of the cells of a histogram of two axes, which stand row by row.
pub(crate) fn put_square(
    alloc: Global,
    text: &mut Text,
    x_edges: &[i64],
    y_edges: &[i64],
    cells: &[CellSum],
) -> Result<(), Memory>
    ensures { OnOk result (text.new ≡ text.old ++ plane_lines (cell_names x_edges.now) (cell_names y_edges.now) (rows_of (suc (length y_edges.now)) (suc (length x_edges.now)) (map cell_seen cells.now))) }
{
    let width = y_edges.len() + 1;
    let mut left = cells;
    for i in 0..x_edges.len() + 1 {
        let (row, rest) = parted(left, width);
        put_named_row(alloc, text, x_edges, y_edges, i, row)?;
        left = rest;
    }
    Ok(())
}
