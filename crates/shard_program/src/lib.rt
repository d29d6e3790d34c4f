//! The top call of the program for shards: a script is run over a span of a table's clusters, and what was found is written as a file;
//! or such files are merged, and what they print together is written. It stands on `shard_loop` for the loops over a span, on
//! `shard_files` for the files, on `merged_text` for what is printed, and on `shard_due` for what is due.
#![tactic(auto)]

mod answer;
mod lines;
mod merge;
mod merging;
mod over_table;
mod run;
mod shard_file;
mod shards;
mod span_file;
mod top;
mod words;

pub use crate::top::shard_top;
