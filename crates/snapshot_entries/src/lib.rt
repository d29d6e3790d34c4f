//! The entries of a snapshot, a cluster at a time: each is tried against the filters above the plan's node, and the columns of one
//! that passes become a record of a text. Stands on `snapshot_rows`, `expr_eval` and `columns`.
//!
//! `Skim::cluster` is the one call that evaluates; whatever else evaluates entries can take its place behind the same contract.
#![tactic(auto)]

mod entry;
mod evaluate;
mod filters;
pub mod job;
pub mod known;
mod reading;
pub mod skim;
pub mod stop;
mod values;
mod view;
pub mod wanted;

pub use crate::job::SnapJob;
pub use crate::skim::Skim;
pub use crate::stop::{EntryStop, SkimStop};
