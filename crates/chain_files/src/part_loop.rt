// Loops.
use crate::chain_fault::ChainFault;
use rdf_values::ListOf;
use shard_lines::ShardLine;

/// What a loop came to over the files: a line for each of its passes, or its first fault.
#[derive(Drop)]
pub enum PartLoop {
    Whole(ListOf<ShardLine>),
    Faulted(ChainFault),
}
