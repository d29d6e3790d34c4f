//! What is due to the words of the program for snapshots and to the files that they name: a status and bytes, in stages.
//! Definitions, and the law that the text of a snapshot reads back; the program that answers so is `snapshot_program`.
#![tactic(auto)]

mod laws;
mod status;

pub use crate::laws::{snapshot_reads_back, untaken_words_are_due_usage};
pub use crate::status::SnapshotStatus;
