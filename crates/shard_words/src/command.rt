// What a command asks for.
use command_words::FileName;
use rdf_values::{ListOf, Span};

/// A run of a script over a table, on a span of its clusters of at most `size` entries.
#[derive(Drop)]
pub struct SpanRun {
    pub script: FileName,
    pub table: FileName,
    pub size: u32,
    pub clusters: Span,
}

/// The merging of the files of runs.
#[derive(Drop)]
pub struct Merging {
    pub script: FileName,
    pub files: ListOf<FileName>,
}

/// A run, or a merging.
#[derive(Drop)]
pub enum ShardCommand {
    Run(SpanRun),
    Merge(Merging),
}
