//! What a run over a chain of tables finds: definitions, and the laws that it is a part, and that parts of several groups of
//! files, joined in the order of their files, are the part of one run over all files. Stands on `chain_files` for parts, and on
//! `shard_runs` for what an accepted script gives.
//!
//! `specs/Chains.antt` has the rows of a chain, its first fault and its lines.
#![tactic(auto)]

mod laws;

pub use crate::laws::{
    all_files_are_the_chain, chains_are_part, chains_have_shapes, chains_join,
    fault_is_of_the_rows, loops_join, only_files_are_refused, parts_join_to_one_run,
    written_parts_read_back,
};
