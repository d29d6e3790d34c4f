//! What the words of the program of shards ask for. Stands on `rdf_outside` for the list of words, and on `command_words` for
//! names of files and numbers.
#![tactic(auto)]

mod command;
mod words;

pub use crate::command::{Merging, ShardCommand, SpanRun};
pub use crate::words::read_command;
