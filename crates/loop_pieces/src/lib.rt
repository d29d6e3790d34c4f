//! What some clusters of a loop come to: accumulators, counts, and the values of watched results; and their joining.
//! The counts of a cutflow too. It stands on `actions` and `merge_core`.
#![tactic(auto)]

pub mod flow;
pub mod laws;
pub mod loop_piece;
pub mod watch_piece;

pub use crate::flow::{Counts, Flow};
pub use crate::loop_piece::{FilledResult, LoopPiece, PartialLine, PartialLines};
pub use crate::watch_piece::{WatchFacts, WatchPiece};
