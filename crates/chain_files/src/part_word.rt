// The first words of a part file's own lines.

/// The first word of a line that is no pass's.
#[derive(Clone, Copy, Debug, PartialEq, Eq)]
pub(crate) enum PartWord {
    Version,
    Files,
    Entries,
    Script,
    Column,
    Loop,
    Fault,
    End,
}
