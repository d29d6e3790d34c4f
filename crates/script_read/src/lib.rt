//! Reads the script of an analysis: its lines, the tokens of each, the form that they are, and what its strings say.
//! It stands on the types and the grammar of `rdf_values`, and on `expr_read` for expressions and the values of a Vary.
#![tactic(auto)]

mod form;
mod lexeme;
mod read;
mod refusal;
mod statement;
mod strings;
mod walk;

pub use crate::read::{one_answer, read_script};
pub use crate::refusal::ScriptRefusal;
