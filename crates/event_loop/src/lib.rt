//! The event loops of a booked graph: which loop runs when, and how it runs.
//! One loop: slots claim clusters side by side, each into a piece of its own, and the pieces are joined. A slot processes clusters
//! one at a time (`state.rt`). A session runs each loop at the first access that needs it, and the Prints of a script go over a session
//! in order. It stands on `block_passes` and `slot_words` for one loop, on `graph` for which loop fills what, and on `result_text` for
//! the lines.
//! No clause says that so many slots run, nor that the gate is called once at each turn of a slot: in `rdf_program` the tests
//! `two_slots_at_once` and `held_cluster_comes_late` show it.
#![tactic(auto)]

mod filling;
mod gather;
pub mod one_loop;
pub mod passes;
mod place;
mod prints;
mod session;
pub mod state;
mod workers;

pub use crate::one_loop::{FilledLoop, LoopEnd, run_loop};
pub use crate::passes::watched_in;
pub use crate::prints::{Transcript, run_prints};
pub use crate::session::{BookedGraph, LoopRefusal, Session};
pub use crate::state::{ClusterProgress, SlotPhase, SlotState, SlotStop};
