//! What a run over a span finds is a shard: laws over the definitions of `shard_spans`, whose code is `shard_loop`'s. So what
//! a run writes is read back, and runs that cover a table's clusters once merge to one run, whatever script was accepted over
//! whatever table.
#![tactic(auto)]

mod laws;

pub use crate::laws::{
    only_cover_is_refused, runs_are_shards, runs_have_shapes, runs_merge_to_one_run,
    written_runs_merge_to_one_run, written_runs_read_back,
};
