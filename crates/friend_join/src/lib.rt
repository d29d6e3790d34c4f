//! A table with a friend's columns beside its own. Stands on `rdf_values` and `columns`.
//!
//! Two tables have an int column of one name, the key. Each entry of the main table gains the cells of the friend's
//! entry with the same key, and where there is none a given number for each int column and the empty vector for each
//! vec column. What is gained, and the first refusal, is `join_of` of `specs/JoinRefused.antt`, which walks all of the
//! friend's rows for each entry; the code keeps the keys in a set whose places are the friend's entries, and goes about
//! it column by column.
#![tactic(auto)]

mod cause;
mod column_names;
mod elements;
mod friend_entry;
mod gathered;
mod joining;
mod laws;
mod matches;
mod one_piece;
mod refusal;

pub use crate::cause::JoinCause;
pub use crate::joining::join;
pub use crate::laws::{a_key_has_one_row, each_entry_stays};
pub use crate::refusal::JoinRefusal;
