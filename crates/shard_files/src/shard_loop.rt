// Loops.
use rdf_values::{Fault, ListOf};
use shard_lines::ShardLine;

/// What a loop came to over the span: a line for each of its passes, or its first fault, by the entry's number in the table.
#[derive(Drop)]
pub enum ShardLoop {
    Whole(ListOf<ShardLine>),
    Faulted(Fault),
}
