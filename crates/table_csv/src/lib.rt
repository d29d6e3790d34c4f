//! Reads a table from CSV bytes. The records are those of the crate `csv`; what they mean as a table is `table_of` of `rdf_values`.
#![tactic(auto)]

mod cells;
mod entries;
mod header;
mod pieces;
mod records;
mod refusal;
mod slots;
mod texts;

pub use crate::entries::read_table;
pub use crate::pieces::MarkedPieces;
pub use crate::refusal::TableRefusal;
pub use crate::slots::{read_columns, read_table_in_slots};
