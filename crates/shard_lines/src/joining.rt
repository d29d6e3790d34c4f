// Joining the lines of two runs.
ghost use Rattle.std.specs.Prelude.{◌≡◌, ◌+◌, ◌+ℤ◌, ◌++◌, IfOk};
ghost use Rattle.std.specs.Int.{int_max, int_min};
ghost use Rattle.rdf_values.specs.{reduce_step};
ghost use Rattle.shard_lines.specs.Joining.{
  added_cells,
  added_counts,
  better_of,
  joined_line,
  joined_lines,
};

use crate::held::{
    cells_of, count_of, counts_of, extreme_of, into_taken, number_of, sum_of, taken_of,
};
use crate::pass_shape::PassShape;
use crate::shard_line::ShardLine;
use histograms::CellSum;
use loop_pieces::Counts;
use rdf_values::{ListOf, Memory, ReduceOp, Scalar};
use std::alloc::Global;

// ---- copies

fn copied_line(alloc: Global, line: &ShardLine) -> Result<ShardLine, Memory>
    ensures { IfOk result (λ copy. copy ≡ line.now) }
{
    match line {
        ShardLine::Count(n) => Ok(ShardLine::Count(*n)),
        ShardLine::Sum(z) => Ok(ShardLine::Sum(*z)),
        ShardLine::Number(z) => Ok(ShardLine::Number(*z)),
        ShardLine::Extreme(z) => Ok(ShardLine::Extreme(*z)),
        ShardLine::Take(values) => Ok(ShardLine::Take(ListOf::from_slice(
            alloc,
            values.as_slice(),
        )?)),
        ShardLine::Cells(cells) => Ok(ShardLine::Cells(ListOf::from_slice(
            alloc,
            cells.as_slice(),
        )?)),
        ShardLine::Report(counts) => Ok(ShardLine::Report(ListOf::from_slice(
            alloc,
            counts.as_slice(),
        )?)),
    }
}

/// Copies of lines, to which those of a later run are joined.
pub fn copied_lines(alloc: Global, lines: &[ShardLine]) -> Result<ListOf<ShardLine>, Memory>
    ensures { IfOk result (λ copies. copies ≡ lines.now) }
{
    let mut copies = ListOf::new(alloc);
    for line in lines {
        copies.push(copied_line(alloc, line)?)?;
    }
    Ok(copies)
}

// ---- joining

fn reduce(op: ReduceOp, a: i64, b: i64) -> i64
    ensures { result ≡ reduce_step op a b }
{
    match op {
        ReduceOp::Min => a.min(b),
        ReduceOp::Max => a.max(b),
        ReduceOp::And => a & b,
        ReduceOp::Or => a | b,
        ReduceOp::Xor => a ^ b,
        ReduceOp::WrapAdd => a.wrapping_add(b),
    }
}

fn least_of(a: Option<i64>, b: Option<i64>) -> Option<i64>
    ensures { result ≡ better_of int_min a b }
{
    match (a, b) {
        (None, b) => b,
        (Some(a), None) => Some(a),
        (Some(a), Some(b)) => Some(a.min(b)),
    }
}

fn greatest_of(a: Option<i64>, b: Option<i64>) -> Option<i64>
    ensures { result ≡ better_of int_max a b }
{
    match (a, b) {
        (None, b) => b,
        (Some(a), None) => Some(a),
        (Some(a), Some(b)) => Some(a.max(b)),
    }
}

// The sum. The limits of the files that are joined keep it within 128 bits; one that left them would count as want of memory.
fn added(a: i128, b: i128) -> Result<i128, Memory>
    ensures { IfOk result (λ z. z ≡ a +ℤ b) }
{
    match a.checked_add(b) {
        Some(z) => Ok(z),
        None => Err(Memory),
    }
}

// The sum of counts, likewise within 64 bits.
fn added_count(a: u64, b: u64) -> Result<u64, Memory>
    ensures { IfOk result (λ n. n ≡ a + b) }
{
    match a.checked_add(b) {
        Some(n) => Ok(n),
        None => Err(Memory),
    }
}

fn added_cell(a: CellSum, b: CellSum) -> Result<CellSum, Memory>
    ensures { IfOk result (λ c. c ≡ record { sum = a.sum +ℤ b.sum; squares = a.squares +ℤ b.squares }) }
{
    let sum = added(a.sum, b.sum)?;
    let squares = added(a.squares, b.squares)?;
    Ok(CellSum { sum, squares })
}

fn added_cells(
    alloc: Global,
    cells: &[CellSum],
    more: &[CellSum],
) -> Result<ListOf<CellSum>, Memory>
    ensures { IfOk result (λ all. all ≡ added_cells cells.now more.now) }
{
    let mut all = ListOf::new(alloc);
    for (i, cell) in cells.iter().enumerate() {
        if i >= more.len() {
            return Ok(all);
        }
        all.push(added_cell(*cell, more[i])?)?;
    }
    Ok(all)
}

fn added_counts(alloc: Global, counts: &[Counts], more: &[Counts]) -> Result<ListOf<Counts>, Memory>
    ensures { IfOk result (λ all. all ≡ added_counts counts.now more.now) }
{
    let mut all = ListOf::new(alloc);
    for (i, count) in counts.iter().enumerate() {
        if i >= more.len() {
            return Ok(all);
        }
        let other = more[i];
        all.push(Counts {
            all: added_count(count.all, other.all)?,
            pass: added_count(count.pass, other.pass)?,
        })?;
    }
    Ok(all)
}

// The values are kept where they are, so that many joinings copy none of them again.
fn joined_values(values: ListOf<Scalar>, more: &[Scalar]) -> Result<ListOf<Scalar>, Memory>
    ensures { IfOk result (λ all. all ≡ values ++ more.now) }
{
    let mut all = values.into_vec();
    all.extend_from_slice(more)?;
    Ok(ListOf::from_vec(all))
}

fn joined_line(
    alloc: Global,
    shape: PassShape,
    line: ShardLine,
    other: &ShardLine,
) -> Result<ShardLine, Memory>
    ensures { IfOk result (λ joined. joined ≡ joined_line shape line other.now) }
{
    match shape {
        PassShape::Count => Ok(ShardLine::Count(added_count(count_of(&line), count_of(other))?)),
        PassShape::Sum => Ok(ShardLine::Sum(added(sum_of(&line), sum_of(other))?)),
        PassShape::Least => Ok(ShardLine::Extreme(least_of(extreme_of(&line), extreme_of(other)))),
        PassShape::Greatest => Ok(ShardLine::Extreme(greatest_of(
            extreme_of(&line),
            extreme_of(other),
        ))),
        PassShape::Take(_) => Ok(ShardLine::Take(joined_values(
            into_taken(alloc, line),
            taken_of(other),
        )?)),
        PassShape::Number(op) => Ok(ShardLine::Number(reduce(
            op,
            number_of(&line),
            number_of(other),
        ))),
        PassShape::Cells(_) => Ok(ShardLine::Cells(added_cells(
            alloc,
            cells_of(&line),
            cells_of(other),
        )?)),
        PassShape::Report(_) => Ok(ShardLine::Report(added_counts(
            alloc,
            counts_of(&line),
            counts_of(other),
        )?)),
    }
}

/// The lines of a loop over the entries of two runs, the earlier first; `shapes` has the shapes of its passes.
pub fn joined_lines(
    alloc: Global,
    shapes: &[PassShape],
    lines: ListOf<ShardLine>,
    others: &[ShardLine],
) -> Result<ListOf<ShardLine>, Memory>
    ensures { IfOk result (λ all. all ≡ joined_lines shapes.now lines others.now) }
{
    let mut all = ListOf::new(alloc);
    let mut i = 0;
    for line in lines.into_vec() {
        if i >= shapes.len() || i >= others.len() {
            return Ok(all);
        }
        all.push(joined_line(alloc, shapes[i], line, &others[i])?)?;
        i += 1;
    }
    Ok(all)
}
