//! The plan of a snapshot: the node whose entries it has, the columns there, and nominal or one variation; or the first cause
//! for which it can't be made. Stands on `graph`.
//!
//! `specs/Plans.antt` has the causes in their order.
#![tactic(auto)]

mod amounts;
mod cause;
mod columns;
mod laws;
mod planning;
mod refusal;
mod under;

pub use crate::cause::SnapCause;
pub use crate::laws::plans_have_headers;
pub use crate::planning::{SnapPlan, plan};
pub use crate::refusal::SnapRefusal;
pub use crate::under::Under;
