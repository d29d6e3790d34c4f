//! Evaluates numbered expressions: with numbers and truth values alone, or with vectors.
//! It stands on `rdf_model`, whose definition of evaluation its calls meet, on `expr_check`, whose expressions they
//! evaluate, and on `entry_fns`, whose functions they call.
#![tactic(auto)]

pub mod calls;
pub mod elements;
pub mod inputs;
pub mod number;
mod operand;
mod scalar;
pub mod steps;
pub mod stop;
mod vector;

pub use crate::calls::{Calls, callable};
pub use crate::inputs::{ColumnInput, Inputs};
pub use crate::scalar::eval_int;
pub use crate::steps::Steps;
pub use crate::stop::{EvalStop, ScalarStop};
pub use crate::vector::eval;
