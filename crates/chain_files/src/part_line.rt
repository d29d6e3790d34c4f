// The lines of a part file.
use crate::chain_fault::ChainFault;
use rdf_values::{Column, Text};
use shard_lines::ShardLine;

/// What a line of a part file says.
#[derive(Drop)]
pub enum PartLine {
    Version,
    Files { first: u32, end: u32 },
    Entries(u64),
    Script(Text),
    Column(Column),
    Loop,
    Pass(ShardLine),
    Fault(ChainFault),
    End,
}
