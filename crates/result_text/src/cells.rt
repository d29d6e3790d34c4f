// The cells of histograms.
ghost use Rattle.std.specs.Prelude.{◌≡◌, ◌≤◌, ◌<◌, ◌+◌, ◌++◌, [], OnOk, Some, length, slice_index_or};
ghost use Rattle.rdf_model.specs.{cell_lines, cell_names, plane_lines};
ghost use Rattle.histograms.specs.{cell_seen};
ghost use Rattle.result_text.specs.{behind, line_at, name_at, plane_at};

use crate::numbers::{put_number, put_sum};
use histograms::{CellSum, Hist1, Hist2};
use rdf_values::{Memory, Text};
use std::alloc::Global;

// Appends the name of an axis's cell.
fn put_cell_name(alloc: Global, text: &mut Text, edges: &[i64], i: usize) -> Result<(), Memory>
    requires { i ≤ length edges.now }
    ensures { OnOk result (Some text.new ≡ behind text.old (name_at edges.now i)) }
{
    if i == 0 {
        return text.extend(b"under");
    }
    if i == edges.len() {
        return text.extend(b"over");
    }
    text.push(b'[')?;
    put_number(alloc, text, edges[i - 1])?;
    text.push(b',')?;
    put_number(alloc, text, edges[i])?;
    text.push(b')')
}

// Appends the line of a cell, behind what is put before its name; a place that the axis doesn't have has no line.
fn put_cell(
    alloc: Global,
    text: &mut Text,
    before: &[u8],
    edges: &[i64],
    i: u32,
    cell: CellSum,
) -> Result<(), Memory>
    ensures { OnOk result (text.new ≡ text.old ++ line_at before.now edges.now i (cell_seen cell)) }
{
    if i as usize > edges.len() {
        return Ok(());
    }
    text.extend(b"  ")?;
    text.extend(before)?;
    put_cell_name(alloc, text, edges, i as usize)?;
    text.push(b' ')?;
    put_sum(alloc, text, cell.sum)?;
    text.push(b' ')?;
    put_sum(alloc, text, cell.squares)?;
    text.push(b'\n')
}

/// Appends the lines of the cells of a histogram of one axis.
pub fn put_flat(alloc: Global, text: &mut Text, edges: &[i64], hist: &Hist1) -> Result<(), Memory>
    ensures { OnOk result (text.new ≡ text.old ++ cell_lines (cell_names edges.now) hist.now.cells) }
{
    for i in 0..hist.cells() {
        put_cell(alloc, text, &[], edges, i, hist.cell(i))?;
    }
    Ok(())
}

// Appends the lines of the cells of the second axis for a cell of the first; a place that the first doesn't have has none.
fn put_row(
    alloc: Global,
    text: &mut Text,
    x_edges: &[i64],
    y_edges: &[i64],
    hist: &Hist2,
    i: u32,
) -> Result<(), Memory>
    requires { i < length hist.now.cells }
    ensures { OnOk result (text.new ≡ text.old ++ plane_at x_edges.now y_edges.now i (slice_index_or hist.now.cells i [])) }
{
    if i as usize > x_edges.len() {
        return Ok(());
    }
    let mut name = Text::new(alloc);
    put_cell_name(alloc, &mut name, x_edges, i as usize)?;
    name.push(b' ')?;
    let before = name.as_bytes();
    let (_, columns) = hist.cells();
    for j in 0..columns {
        put_cell(alloc, text, before, y_edges, j, hist.cell(i, j))?;
    }
    Ok(())
}

/// Appends the lines of the cells of a histogram of two axes.
pub fn put_square(
    alloc: Global,
    text: &mut Text,
    x_edges: &[i64],
    y_edges: &[i64],
    hist: &Hist2,
) -> Result<(), Memory>
    ensures { OnOk result (text.new ≡ text.old ++ plane_lines (cell_names x_edges.now) (cell_names y_edges.now) hist.now.cells) }
{
    let (rows, _) = hist.cells();
    for i in 0..rows {
        put_row(alloc, text, x_edges, y_edges, hist, i)?;
    }
    Ok(())
}
