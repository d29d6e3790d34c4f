//! The words that all slots share under a rule. By one of them slots draw clusters, each once, and stop at a bar that another holds; on one they
//! note the clusters that they finish in one order. Results over the first clusters noted, and the partial lines of watched results.
//! No clause says when a slot draws, nor which slots do.
#![tactic(auto)]

pub mod between;
pub mod book;
pub mod claims;
pub mod laws;
pub mod lines;
mod rule;
mod runs;
pub mod seat;

pub use crate::between::{PartialPiece, partial_between};
pub use crate::book::{Book, Orders};
pub use crate::claims::{Claims, Drawn};
pub use crate::lines::partial_lines;
pub use crate::seat::{ClaimSeat, SeatList, Share, ShareList};
