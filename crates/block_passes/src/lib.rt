//! All passes of an event loop over the entries of one block, pass after pass with a limit that falls: which selections of places they
//! share and how each is made from the one above it, and how the parts of each pass find the block's first fault, feed a tally and are
//! counted. It stands on `block_cache`, which evaluates filters over a block, on `block_laws` and on `cluster_tally`.
#![tactic(auto)]

mod block_ends;
mod copies;
mod ending;
mod feed;
mod inputs;
mod passes;
pub mod plan;
pub mod reserve;
mod select;
mod sources;
pub mod state;
pub mod turn;

pub use crate::plan::{LoopPlan, NamedSteps, Step};
pub use crate::reserve::vector_keys;
pub use crate::state::BlockState;
pub use crate::turn::{BlockStop, Found};
