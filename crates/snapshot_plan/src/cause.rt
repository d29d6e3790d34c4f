// Why a snapshot isn't planned.

/// The first of these that applies. Columns count from 0, in the order in which they were asked for.
#[derive(Clone, Copy, Debug, PartialEq, Eq)]
pub enum SnapCause {
    BadNode,
    BadColumn { column: u32 },
    BadVariation,
    TooMany { count: u32 },
}
