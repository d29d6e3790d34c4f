// Which lines have the shape of a pass.
ghost use Rattle.std.specs.Prelude.{◌≡◌};
ghost use Rattle.std.specs.List.{list_all};
ghost use Rattle.shard_lines.specs.Shapes.{
  are_cells,
  has_shape,
  have_shapes,
  is_count,
  is_extreme,
  is_reduced,
  is_report,
  is_sum,
  is_take_from,
  is_taken_from,
};

use crate::pass_shape::PassShape;
use crate::shard_line::ShardLine;
use rdf_values::{ColType, Scalar};

fn is_count(line: &ShardLine) -> bool
    ensures { result ≡ is_count line.now }
{
    matches!(line, ShardLine::Count(_))
}

fn is_sum(line: &ShardLine) -> bool
    ensures { result ≡ is_sum line.now }
{
    matches!(line, ShardLine::Sum(_))
}

fn is_extreme(line: &ShardLine) -> bool
    ensures { result ≡ is_extreme line.now }
{
    matches!(line, ShardLine::Extreme(_))
}

// Whether a value may stand in a Take of a column of that kind.
fn is_taken_from(column: ColType, value: Scalar) -> bool
    ensures { result ≡ is_taken_from column value }
{
    match (column, value) {
        (ColType::Bool, Scalar::Bool(_)) => true,
        (ColType::Bool, Scalar::Int(_)) => false,
        (ColType::Int, Scalar::Int(_)) => true,
        (ColType::Int, Scalar::Bool(_)) => false,
        (ColType::Vect, Scalar::Int(_)) => true,
        (ColType::Vect, Scalar::Bool(_)) => false,
    }
}

fn are_taken_from(column: ColType, values: &[Scalar]) -> bool
    ensures { result ≡ list_all (is_taken_from column) values.now }
{
    values.iter().all(|value| is_taken_from(column, *value))
}

fn is_take_from(column: ColType, line: &ShardLine) -> bool
    ensures { result ≡ is_take_from column line.now }
{
    match line {
        ShardLine::Take(values) => are_taken_from(column, values.as_slice()),
        _ => false,
    }
}

fn is_reduced(line: &ShardLine) -> bool
    ensures { result ≡ is_reduced line.now }
{
    matches!(line, ShardLine::Number(_))
}

fn are_cells(count: u32, line: &ShardLine) -> bool
    ensures { result ≡ are_cells count line.now }
{
    match line {
        ShardLine::Cells(cells) => cells.len() == count as usize,
        _ => false,
    }
}

fn is_report(count: u32, line: &ShardLine) -> bool
    ensures { result ≡ is_report count line.now }
{
    match line {
        ShardLine::Report(counts) => counts.len() == count as usize,
        _ => false,
    }
}

fn has_shape(shape: PassShape, line: &ShardLine) -> bool
    ensures { result ≡ has_shape shape line.now }
{
    match shape {
        PassShape::Count => is_count(line),
        PassShape::Sum => is_sum(line),
        PassShape::Least => is_extreme(line),
        PassShape::Greatest => is_extreme(line),
        PassShape::Take(column) => is_take_from(column, line),
        PassShape::Number(_) => is_reduced(line),
        PassShape::Cells(count) => are_cells(count, line),
        PassShape::Report(count) => is_report(count, line),
    }
}

/// Whether there is one line for each shape, in order.
pub fn have_shapes(shapes: &[PassShape], lines: &[ShardLine]) -> bool
    ensures { result ≡ have_shapes shapes.now lines.now }
{
    if shapes.len() != lines.len() {
        return false;
    }
    for (i, shape) in shapes.iter().enumerate() {
        if !has_shape(*shape, &lines[i]) {
            return false;
        }
    }
    true
}
