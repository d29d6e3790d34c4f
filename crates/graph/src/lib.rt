//! The booked graph: the columns, expressions and results of an accepted script by numbers, as the event loop reads them.
//! Its numbers are those of `graph_numbers`. Each statement is checked against those before it, the latest first, and what it adds goes
//! into tables: kinds of versions, checked expressions of sites, results, variations, and on which of these each depends.
#![tactic(auto)]

mod amounts;
mod before;
mod book;
mod checks;
pub mod graph;
pub mod laws;
pub mod lookup;
mod loops;
mod refusals;
mod sets;
mod tables;
mod variations;
mod versions;

pub use crate::graph::Graph;
pub use crate::refusals::GraphRefusal;
pub use crate::sets::VarSet;
pub use crate::variations::Variations;
