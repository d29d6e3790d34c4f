//! The laws that a run over a chain, and printing its joined parts, are due the transcript over the rows of all its tables, up to the
//! place in a fault's line. Nothing in it runs.
#![tactic(auto)]

mod laws;

pub use crate::laws::{print_is_due_the_transcript, run_is_due_the_transcript};
