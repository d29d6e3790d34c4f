// The limits of what lines hold.

/// The limits of the lines of a file: of counts, of how many values a Take has (none: no limit), and of the absolute values
/// of a sum, of a cell's sum and of its sum of squares. Each limit may be reached.
#[derive(Clone, Copy, Debug, PartialEq, Eq)]
pub struct LineLimits {
    pub count: u64,
    pub values: Option<u64>,
    pub sum: u128,
    pub cell_sum: u128,
    pub cell_squares: u128,
}
