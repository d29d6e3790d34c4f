//! The top call of the program for chains: a script over a chain of tables, run at once, or in steps that other programs share out.
//! It stands on `chain_words` for what the words ask for, on `input_files` for scripts and tables, on `chain_loop` for the loops
//! of a table, on `chain_files` for parts, and on `chain_text` for what is printed. What is due is `chain_due`'s.
#![tactic(auto)]

mod answer;
mod booking;
mod command;
mod first_table;
mod fitting;
mod join;
mod lines;
mod map;
mod means;
mod other_tables;
mod parts;
mod print;
mod run;
mod scripts;
mod table_columns;
mod tables;
mod top;
mod words;

pub use crate::top::chain_top;
