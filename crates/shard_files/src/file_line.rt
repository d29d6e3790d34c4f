// The lines of a shard file.
use rdf_values::{Column, Fault};
use shard_lines::ShardLine;

/// What a line of a shard file says.
#[derive(Drop)]
pub enum FileLine {
    Version,
    Table { entries: u32, clusters: u32 },
    Column(Column),
    Span { lo: u32, hi: u32 },
    Loop,
    Pass(ShardLine),
    Fault(Fault),
    End,
}
