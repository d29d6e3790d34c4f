//! What is due to the words of the program for chains, to the files that they name and to the handed-in functions: a status and bytes, for
//! `run`, `map`, `join` and `print`, in stages. Definitions and a law; the program that answers so is `chain_program`.
#![tactic(auto)]

mod laws;
mod status;

pub use crate::laws::untaken_words_are_due_usage;
pub use crate::status::ChainStatus;
