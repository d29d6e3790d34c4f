//! What the command's words ask for. Stands on `rdf_values`, `rdf_outside` for the list of words, and `clap`.
#![tactic(auto)]

mod arguments;
pub mod command;
pub mod file_name;
pub mod laws;
mod read;

pub use crate::command::{Command, Friend, Input};
pub use crate::file_name::FileName;
pub use crate::read::{number, read_command};
