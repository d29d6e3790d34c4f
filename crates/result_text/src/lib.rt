//! The lines that a run prints: of results, partial results, faults and refusals. It stands on `graph` for the names,
//! and on `loop_pieces` for the values.
#![tactic(auto)]

pub mod cells;
pub mod labels;
pub mod numbers;
pub mod partials;
pub mod refusals;
pub mod results;
pub mod shares;
pub mod values;

pub use crate::labels::fault_line;
pub use crate::partials::partial_lines;
pub use crate::refusals::{Refusal, refusal_line};
pub use crate::results::result_lines;
