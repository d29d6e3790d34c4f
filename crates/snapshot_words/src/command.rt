// What a command asks for.
use command_words::FileName;
use rdf_values::{ListOf, Name};
use snapshot_plan::Under;

/// A snapshot of a script over a table.
#[derive(Drop)]
pub struct SnapCommand {
    pub script: FileName,
    pub table: FileName,
    pub node: Name,
    /// The columns, in the order in which they are written.
    pub columns: ListOf<Name>,
    pub under: Under,
    /// How many slots run at once.
    pub slots: u32,
    /// The most entries of a cluster.
    pub cluster: u32,
}
