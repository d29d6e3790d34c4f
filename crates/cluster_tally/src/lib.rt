//! What a slot of a loop makes of the entries that it is told: an accumulator for each action pass, counts of the named filters, and a
//! trail for each watched result. It stands on `actions` and `loop_pieces`, and on neither a graph nor a cache.
#![tactic(auto)]

pub mod laws;
pub mod tally;
pub mod watcher;

pub use crate::tally::Tally;
