//! The program of snapshots: a script and a table are read, the entries that pass a node's filters are written as a table, or what
//! else is due. It stands on `snapshot_due` for what is due, on `input_files` for files, and on `snapshot_plan` and `snapshot_run`
//! for the text.
#![tactic(auto)]

mod answer;
mod inputs;
mod lines;
mod over_table;
mod planning;
mod top;
mod words;

pub use crate::top::snapshot_top;
