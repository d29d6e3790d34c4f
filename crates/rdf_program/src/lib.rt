//! The program's top call: a script and a table are read, the script is booked and run over the table in event loops, and what is
//! due is written. It stands on `input_files` for scripts and tables in files, on `rdf_outside` for output, on `command_words` for
//! what the words mean, and on `event_loop` for what is printed.
#![tactic(auto)]

mod answer;
mod friend;
mod input;
mod make;
mod means;
mod one_due;
mod over_table;
mod status;
mod top;
mod words;

pub use crate::one_due::{accepted_runs_end, one_status_is_due};
pub use crate::status::Status;
pub use crate::top::rdf_top;

#[cfg(test)]
mod tests;
