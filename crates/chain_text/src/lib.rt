//! What the loops of a part print: for each Print the lines of its result, from the lines of the loop that fills it, or the
//! line of that loop's fault. It stands on `chain_files` for the loops, and on `merged_text` for the lines of results.
#![tactic(auto)]

mod laws;
mod prints;

pub use crate::laws::shaped_loops_fit;
pub use crate::prints::chain_text;
