// The shapes of lines.
use rdf_values::{ColType, ReduceOp};

/// The line that a pass has: for a Take by the kind of its column, for a Reduce by its operation, for a histogram by the
/// number of its cells, for a report by the number of its filters.
#[derive(Clone, Copy, Debug, PartialEq, Eq)]
pub enum PassShape {
    Count,
    Sum,
    Least,
    Greatest,
    Take(ColType),
    Number(ReduceOp),
    Cells(u32),
    Report(u32),
}
