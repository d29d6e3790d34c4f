//! Part files: what a run over some files of a chain of tables found, as a text that other steps join. Stands on
//! `shard_lines`, which has the lines of passes, and on `shard_files`, which has the same of one table's clusters.
//!
//! `specs/Parts.antt` says which values are a part and what its lines are; each part has one text, and its limits grow with
//! its entries. Bytes are refused at the first line that no part has after the lines before it. `specs/Joining.antt` says
//! what two parts come to together; parts may be joined in any groups. `specs/Covering.antt` says which files parts hold, and
//! `specs/Digests.antt` what a script's digest is.
#![tactic(auto)]

mod chain_fault;
mod covering;
mod digest;
mod joining;
mod laws;
mod limits;
mod part;
mod part_line;
mod part_loop;
mod part_word;
mod part_words;
mod printing;
mod progress;
mod reading;
mod refusal;

pub use crate::chain_fault::ChainFault;
pub use crate::covering::{first_other, first_uncovered, in_order};
pub use crate::digest::script_digest;
pub use crate::joining::{are_loops, join_all, join_parts, joined_loops};
pub use crate::laws::{
    a_text_breaks_nowhere, a_text_is_of_one_part, accepted_can_join, covered_are_next,
    groups_are_free, joined_is_part, joined_keeps_shape, joining_is_associative,
    least_is_uncovered, order_is_kept, order_keeps_files,
};
pub use crate::part::{Part, PartFields};
pub use crate::part_line::PartLine;
pub use crate::part_loop::PartLoop;
pub use crate::printing::print_part;
pub use crate::reading::read_part;
pub use crate::refusal::PartRefusal;
