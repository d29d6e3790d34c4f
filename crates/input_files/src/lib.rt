//! Scripts and tables in files, for the programs that read both: a whole file by its name, the script or the table that its bytes
//! spell, or the line that is due where they spell none. It stands on `rdf_outside` for files, on `script_read` and `table_csv` for
//! what bytes mean, and on `result_text` for lines. `specs/Due` has the stages in which a program's answer is due, and
//! `specs/Answers` what a program leaves written.
#![tactic(auto)]

mod refuse;
mod scripts;
mod tables;
mod whole_file;

pub use crate::refuse::{FileCause, FileRefusal, ReadFile, absent, unread};
pub use crate::scripts::{MAX_SCRIPT, read_script_file, script_of};
pub use crate::tables::{MAX_TABLE, columns_of, read_columns_file, read_table_file};
pub use crate::whole_file::{Fetched, fetch, fetch_parts};
