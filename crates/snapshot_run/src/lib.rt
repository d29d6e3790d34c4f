//! The run of a snapshot: slots claim clusters side by side, each makes the records of its clusters, and the records are put
//! together in file order. Stands on `snapshot_entries`, `snapshot_pieces` and `slot_words`.
//! No clause says that so many slots run, nor that the gate is called once at each turn of a slot.
#![tactic(auto)]

mod joining;
mod piece;
mod records;
pub mod running;
pub mod stop;
mod workers;

pub use crate::running::run;
pub use crate::stop::SnapStop;
