//! What is due to the words of the program for shards and to the files that they name: a status and bytes, for `run` and `merge`, in
//! stages. Definitions, and the law that merging the files that runs are due is due the transcript of one run; the program that answers
//! so is `shard_program`.
#![tactic(auto)]

mod laws;
mod status;

pub use crate::laws::{merging_is_due_the_transcript, untaken_words_are_due_usage};
pub use crate::status::ShardStatus;
