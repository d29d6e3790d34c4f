//! Histograms of one and two axes: edges, and cells that sum weights and their squares.
//! It stands on `rdf_values`, whose definitions say what a cell holds.
#![tactic(auto)]

mod buckets;
pub mod cell_sum;
pub mod edges;
pub mod hist1;
pub mod hist2;

pub use crate::cell_sum::CellSum;
pub use crate::edges::{EdgeRefusal, Edges};
pub use crate::hist1::{Hist1, MOST_FILLS};
pub use crate::hist2::Hist2;
