//! What the words of the program for chains ask for. Stands on `rdf_outside` for the list of words and on `command_words` for
//! names of files.
#![tactic(auto)]

pub mod command;
mod read;
mod reading;

pub use crate::command::{ChainCommand, Joining, Mapping, Printing, Running, Settings};
pub use crate::read::read_command;
