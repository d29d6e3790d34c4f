//! What the words of the program for snapshots ask for. Stands on `command_words` for names of files and numbers, on
//! `snapshot_plan` for nominal and variations, and on `clap`.
#![tactic(auto)]

mod arguments;
pub mod command;
mod laws;
mod lists;
mod read;

pub use crate::command::SnapCommand;
pub use crate::laws::commands_are_plans;
pub use crate::read::read_command;
