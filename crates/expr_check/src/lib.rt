//! Types of expressions: the kind of an expression over named columns, or the first refusal, and the
//! expression with its columns and functions numbered. It stands on `rdf_values`.
#![tactic(auto)]

mod callee;
pub mod checked;
mod kind;
mod part;
mod reads;
pub mod refusal;
pub mod scope;

pub use crate::checked::{Checked, check};
pub use crate::refusal::CheckRefusal;
pub use crate::scope::{ReadableColumns, Scope};
