// What a line holds, and nothing where it is of another kind.
ghost use Rattle.std.specs.Prelude.{◌≡◌};
ghost use Rattle.shard_lines.specs.{cells_of, count_of, counts_of, extreme_of, number_of, sum_of, taken_of};

use crate::shard_line::ShardLine;
use histograms::CellSum;
use loop_pieces::Counts;
use rdf_values::{ListOf, Scalar};
use std::alloc::Global;

pub(crate) fn count_of(line: &ShardLine) -> u64
    ensures { result ≡ count_of line.now }
{
    match line {
        ShardLine::Count(n) => *n,
        _ => 0,
    }
}

pub(crate) fn sum_of(line: &ShardLine) -> i128
    ensures { result ≡ sum_of line.now }
{
    match line {
        ShardLine::Sum(z) => *z,
        _ => 0,
    }
}

pub(crate) fn number_of(line: &ShardLine) -> i64
    ensures { result ≡ number_of line.now }
{
    match line {
        ShardLine::Number(z) => *z,
        _ => 0,
    }
}

pub(crate) fn extreme_of(line: &ShardLine) -> Option<i64>
    ensures { result ≡ extreme_of line.now }
{
    match line {
        ShardLine::Extreme(z) => *z,
        _ => None,
    }
}

pub(crate) fn taken_of(line: &ShardLine) -> &[Scalar]
    ensures { result.now ≡ taken_of line.now }
{
    match line {
        ShardLine::Take(values) => values.as_slice(),
        _ => &[],
    }
}

pub(crate) fn into_taken(alloc: Global, line: ShardLine) -> ListOf<Scalar>
    ensures { result ≡ taken_of line }
{
    match line {
        ShardLine::Take(values) => values,
        _ => ListOf::new(alloc),
    }
}

pub(crate) fn cells_of(line: &ShardLine) -> &[CellSum]
    ensures { result.now ≡ cells_of line.now }
{
    match line {
        ShardLine::Cells(cells) => cells.as_slice(),
        _ => &[],
    }
}

pub(crate) fn counts_of(line: &ShardLine) -> &[Counts]
    ensures { result.now ≡ counts_of line.now }
{
    match line {
        ShardLine::Report(counts) => counts.as_slice(),
        _ => &[],
    }
}
