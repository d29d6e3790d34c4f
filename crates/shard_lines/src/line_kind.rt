// Kinds of lines.

/// What a line of a pass holds, as its first word says.
#[derive(Clone, Copy, Debug, PartialEq, Eq)]
pub(crate) enum LineKind {
    Count,
    Sum,
    Number,
    Extreme,
    Take,
    Cells,
    Report,
}
