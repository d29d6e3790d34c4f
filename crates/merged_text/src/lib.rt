//! What the loops of merged shards print: for each Print the lines of its result, from the lines of the loop that fills it, or
//! the line of that loop's fault. It stands on `shard_files` for the loops, and on `result_text` for the lines.
#![tactic(auto)]

mod cells;
mod laws;
mod prints;
mod told;
mod values;

pub use crate::laws::lines_print_their_passes;
pub use crate::prints::{MergedText, merged_text};
pub use crate::told::put_result;
