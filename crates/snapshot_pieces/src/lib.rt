//! The records of clusters that slots made side by side: how slots stop, what they tell together, and their records in file order.
//! Stands on `slot_words`; the laws of what slots tell are those of `merge_core`.
#![tactic(auto)]

pub mod finished;
pub mod gather;
pub mod piece;
pub mod place;

pub use crate::finished::{End, Finished};
pub use crate::gather::{SnapshotOutcome, gathered};
pub use crate::piece::TextPiece;
pub use crate::place::placed;
