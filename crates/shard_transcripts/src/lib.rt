//! That shards merge to one run: what the joined loops of shards print is the transcript of one run over the whole table.
//! It stands on `shard_spans` for the joining, and on `merged_text` for the lines.
#![tactic(auto)]

mod laws;

pub use crate::laws::{
    merged_run_prints_no_partials, merged_run_prints_the_transcript, shards_merge_to_the_transcript,
};
