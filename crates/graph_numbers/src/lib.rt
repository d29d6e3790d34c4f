//! The numbers of a booked graph: sites, versions, filters, results, passes and loops of a script, as functions of the script, the
//! table's columns and the functions' names, with their laws. It stands on `rdf_values` and `rdf_model`, whose definitions they render.
#![tactic(auto)]

pub mod laws;
pub mod pass;
pub mod version;

pub use crate::pass::{Pass, ResultKind};
pub use crate::version::{Source, Version};
