//! Evaluates expressions that give numbers column by column: over the selected places of a block of entries at once. Of vectors they
//! take only the sum, the size, the least and the greatest element, each of a column. At each place it comes to
//! exactly what the definition of evaluation in `rdf_model` says. It stands on `expr_check`, whose expressions it evaluates, on
//! `entry_fns`, whose functions it calls, and on `expr_eval`, which evaluates the same expressions entry by entry, for
//! operations on numbers, stops and counted steps.
#![tactic(auto)]

mod able;
mod arguments;
mod columns;
pub mod evaluation;
pub mod folds;
mod kernel;
mod kernels;
pub mod lane_inputs;
mod narrowing;
mod nodes;
mod operators;
mod parting;
pub mod scratch;
pub mod selection;

pub use crate::able::can_eval_lane;
pub use crate::evaluation::{Evaluation, eval_lane};
pub use crate::folds::{Fold, FoldCall, fold_call};
pub use crate::lane_inputs::{KnownPlaces, LaneColumn, LaneInputs, LaneVectors};
pub use crate::parting::Stopped;
pub use crate::scratch::{Scratch, is_deep_enough};
pub use crate::selection::Selection;

/// How many places a block has at most.
pub const MAX_PLACES: usize = 1024;
