//! Shard files: what a run over some clusters of a table found, as a text that other runs join. Stands on `shard_lines`, which
//! has the lines of passes.
//!
//! `specs/Shards.antt` says which values are a shard and what its lines are; each shard has one text. Bytes are refused at
//! the first line that no shard has after the lines before it. `specs/Merging.antt` says how the shards of spans that hold
//! each cluster once are joined.
#![tactic(auto)]

mod file_line;
mod file_word;
mod file_words;
mod laws;
mod limits;
mod merge_cause;
mod merging;
mod printing;
mod progress;
mod reading;
mod refusal;
mod shard;
mod shard_loop;
mod text_lines;

pub use crate::file_line::FileLine;
pub use crate::file_words::{read_fault_kind, read_kind};
pub use crate::laws::{a_text_breaks_nowhere, a_text_is_of_one_shard};
pub use crate::merge_cause::{MergeCause, MergeRefusal};
pub use crate::merging::{merge_shards, same_columns};
pub use crate::printing::{fault_number, kind_word, print_shard, put_word};
pub use crate::progress::has_name;
pub use crate::reading::read_shard;
pub use crate::refusal::ShardRefusal;
pub use crate::shard::{Shard, ShardParts};
pub use crate::shard_loop::ShardLoop;
pub use crate::text_lines::first_line;
