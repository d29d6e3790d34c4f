//! The text of a table, as a snapshot writes it: a header, and a record for each entry. Stands on `rdf_values` and, for the
//! law that the text reads back, on `table_csv`.
//!
//! `specs/TableTexts.antt` has the text, `specs/Laws.antt` what it reads as.
#![tactic(auto)]

mod entry;
mod header;
mod laws;
mod numbers;

pub use crate::entry::put_entry;
pub use crate::header::put_header;
pub use crate::laws::{parts_join, text_reads_back};
