//! What a run over a span of clusters finds: definitions, and laws that bind them to the table's clusters and tell what shards of
//! several spans come to together. Stands on `loop_pieces` and `shard_files`.
//!
//! `specs/Spans.antt` has the rows of a span, its first fault and its lines.
#![tactic(auto)]

mod laws;

pub use crate::laws::{
    first_faulty_cluster_has_the_fault_of_its_span, joined_lines_are_of_both,
    shards_join_to_one_run,
};
