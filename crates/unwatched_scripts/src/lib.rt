//! Scripts without their Watch lines: laws over the definitions of `rdf_model`. Dropping a script's Watch lines changes none of
//! its loops, and of what it prints only the partial lines, which go.
#![tactic(auto)]

mod laws;

pub use crate::laws::{dropped_watches_change_no_loop, dropped_watches_drop_partial_lines};
