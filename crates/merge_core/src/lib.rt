//! Pieces that slots make, each of some clusters, and their joining; and slots that claim clusters as a machine of events.
#![tactic(auto)]

pub mod events;
pub mod laws;
pub mod machine;
pub mod piece;
pub mod refusal;
mod slot;

pub use crate::events::replay;
pub use crate::machine::Core;
pub use crate::piece::{Noted, Piece, Trail, TrailList, merge_all};
pub use crate::refusal::{ReplayRefusal, StepRefusal};
