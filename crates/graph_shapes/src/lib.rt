//! The shapes of the passes of a booked graph's loops, by which files of lines are compared with a script. It stands on
//! `graph` for the graph and on `shard_lines` for shapes; that lines joined by these shapes are printed for the graph is a
//! lemma of `proofs/Fitting.antt`.
#![tactic(auto)]

mod laws;
mod shapes;

pub use crate::laws::joined_loops_fit;
pub use crate::shapes::graph_shapes;
