//! The loops of a booked graph over a span of clusters: each as the lines of its passes, or with its first fault.
//! It stands on `event_loop` for the clusters, and on `shard_spans` for what a span comes to.
//!
//! One slot processes the clusters of the span in order.
#![tactic(auto)]

mod filled_lines;
mod loops;
mod passes;
mod span_run;

pub use crate::loops::span_loops;
pub use crate::passes::span_lines;
pub use crate::span_run::{Spanned, run_span};
