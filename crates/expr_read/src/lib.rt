//! Reads and prints the expressions of an analysis: tokens, a parser that descends from the left with one token in hand,
//! and the canonical text. It stands on the types and the grammar of `rdf_values`.
#![tactic(auto)]

mod laws;
mod lexeme;
mod parser;
mod print;
mod read;
mod tokenizer;

pub use laws::{one_answer, one_tree, scan_decides};
pub use print::print_expr;
pub use read::{read_expr, read_values};
pub use tokenizer::ExprRefusal;
