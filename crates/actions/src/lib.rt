//! Accumulators: what an action makes of the items that entries feed to it, cluster by cluster, and their merging.
//! It stands on `rdf_values`, whose definitions say what is made, and on `histograms`.
#![tactic(auto)]

pub mod acc;
pub mod batch;
pub mod fills;
pub mod folding;
pub mod items;
pub mod lane;
pub mod numbers;
pub mod places;
pub mod state;
pub mod taken;

pub use crate::acc::{Acc, FeedStop, Filled};
pub use crate::batch::{Batch, BatchFault, Sources};
pub use crate::items::{ColumnValue, Items};
pub use crate::lane::FedLane;
pub use crate::places::Places;
pub use crate::taken::Taken;
