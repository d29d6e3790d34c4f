//! What the loops of a chain, and of joined parts, print: the transcript of one run over the rows of all tables, but for the
//! place in a fault's line. It stands on `chain_runs` for the joining, on `chain_text` for the lines, and on
//! `shard_transcripts` for the transcript of one table.
#![tactic(auto)]

mod laws;

pub use crate::laws::{
    chain_prints_the_transcript, one_table_prints_the_transcript, parts_print_the_transcript,
};
