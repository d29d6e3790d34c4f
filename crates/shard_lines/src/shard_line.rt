// The line of a pass.
use histograms::CellSum;
use loop_pieces::Counts;
use rdf_values::{ListOf, Scalar};

/// What a pass came to: a count, a sum, the number of a Reduce, an extreme or none, the values of a Take, the cells of a
/// histogram in the order in which they are printed, or the counts of a report's filters.
#[derive(Drop)]
pub enum ShardLine {
    Count(u64),
    Sum(i128),
    Number(i64),
    Extreme(Option<i64>),
    Take(ListOf<Scalar>),
    Cells(ListOf<CellSum>),
    Report(ListOf<Counts>),
}
