//! The loops of a booked graph over one table of a chain, by several slots: each as the lines of its passes, or with its first
//! fault. It stands on `event_loop` for the slots, on `shard_loop` for the lines, and on `chain_runs` for what they are.
#![tactic(auto)]

mod loops;
mod one_loop;
mod table_run;

pub use crate::loops::{table_loop, table_loops};
pub use crate::table_run::TableRun;
