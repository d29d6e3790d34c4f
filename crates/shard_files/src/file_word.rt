// The first words of a shard file's own lines.

/// The first word of a line that is no pass's.
#[derive(Clone, Copy, Debug, PartialEq, Eq)]
pub(crate) enum FileWord {
    Version,
    Table,
    Column,
    Span,
    Loop,
    Fault,
    End,
}
