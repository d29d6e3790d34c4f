// The lines of what an action came to.
ghost use Rattle.std.specs.Prelude.{◌≡◌, ◌+◌, ◌++◌, OnOk, decimal, length, map};
ghost use Rattle.rdf_model.specs.{scalar_text, taken_text, x_edges_of};
ghost use Rattle.result_text.specs.{more_taken, value_lines};
ghost use Rattle.merged_text.specs.{cells_filled, line_filled};
ghost use Rattle.histograms.specs.{cell_seen};

use crate::cells::{put_flat, put_square};
use histograms::CellSum;
use rdf_values::{ActionKind, Memory, Scalar, Text};
use result_text::numbers::{put_count, put_number, put_option, put_sum, put_wide};
use shard_lines::ShardLine;
use std::alloc::Global;

fn x_edges(kind: &ActionKind) -> &[i64]
    ensures { result.now ≡ x_edges_of kind.now }
{
    match kind {
        ActionKind::Histo1D { x_edges, .. } => x_edges.as_slice(),
        ActionKind::Histo2D { x_edges, .. } => x_edges.as_slice(),
        _ => &[],
    }
}

// Appends a number or a truth value.
fn put_scalar(alloc: Global, text: &mut Text, value: Scalar) -> Result<(), Memory>
    ensures { OnOk result (text.new ≡ text.old ++ scalar_text value) }
{
    match value {
        Scalar::Int(z) => put_number(alloc, text, z),
        Scalar::Bool(true) => text.extend(b"true"),
        Scalar::Bool(false) => text.extend(b"false"),
    }
}

// Appends values, each behind a space.
fn put_others(alloc: Global, text: &mut Text, values: &[Scalar]) -> Result<(), Memory>
    ensures { OnOk result (text.new ≡ text.old ++ more_taken values.now) }
{
    for value in values {
        text.push(b' ')?;
        put_scalar(alloc, text, *value)?;
    }
    Ok(())
}

// Appends the values with one space between, or `none`.
fn put_values(alloc: Global, text: &mut Text, values: &[Scalar]) -> Result<(), Memory>
    ensures { OnOk result (text.new ≡ text.old ++ taken_text values.now) }
{
    let Some((first, others)) = values.split_first() else {
        return text.extend(b"none");
    };
    put_scalar(alloc, text, *first)?;
    put_others(alloc, text, others)
}

// Appends how many cells an axis has.
fn put_cell_count(alloc: Global, text: &mut Text, edges: &[i64]) -> Result<(), Memory>
    ensures { OnOk result (text.new ≡ text.old ++ decimal (length edges.now + 1)) }
{
    put_wide(alloc, text, edges.len() as u128 + 1)
}

// Appends the cells of a histogram, behind the label.
fn put_cells(
    alloc: Global,
    text: &mut Text,
    kind: &ActionKind,
    cells: &[CellSum],
) -> Result<(), Memory>
    ensures { OnOk result (text.new ≡ text.old ++ value_lines kind.now (cells_filled kind.now (map cell_seen cells.now))) }
{
    if let ActionKind::Histo2D {
        x_edges,
        y_edges,
        ..
    } = kind
    {
        text.extend(b"histo2d ")?;
        put_cell_count(alloc, text, x_edges.as_slice())?;
        text.push(b' ')?;
        put_cell_count(alloc, text, y_edges.as_slice())?;
        text.push(b'\n')?;
        return put_square(alloc, text, x_edges.as_slice(), y_edges.as_slice(), cells);
    }
    text.extend(b"histo1d ")?;
    put_cell_count(alloc, text, x_edges(kind))?;
    text.push(b'\n')?;
    put_flat(alloc, text, x_edges(kind), cells)
}

/// Appends what the line of an action says, behind the label.
pub(crate) fn put_line(
    alloc: Global,
    text: &mut Text,
    kind: &ActionKind,
    line: &ShardLine,
) -> Result<(), Memory>
    ensures { OnOk result (text.new ≡ text.old ++ value_lines kind.now (line_filled kind.now line.now)) }
{
    match line {
        ShardLine::Count(n) => put_count(alloc, text, *n)?,
        ShardLine::Sum(z) => put_sum(alloc, text, *z)?,
        ShardLine::Number(z) => put_number(alloc, text, *z)?,
        ShardLine::Extreme(z) => put_option(alloc, text, *z)?,
        ShardLine::Take(values) => put_values(alloc, text, values.as_slice())?,
        ShardLine::Cells(cells) => return put_cells(alloc, text, kind, cells.as_slice()),
        ShardLine::Report(_) => text.extend(b"none")?,
    }
    text.push(b'\n')
}
