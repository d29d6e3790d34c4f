//! What the passes of an event loop share of a block of entries: an expression is evaluated over all entries that call for it at once,
//! and once for all variations under which it comes to the same: at all places at once, or place by place where vectors are met
//! otherwise than by their sum, size, least or greatest element. For each key, which is a site under nominal or a variation, a lane has
//! a value for each place, and marks that say where its evaluation was begun and where it came to that value. It stands on
//! `expr_lanes`, which evaluates into lanes, and on `loop_keys` for the numbers of keys and for what is known of one entry.
#![tactic(auto)]

mod able;
mod attempt;
pub mod block;
mod block_marks;
pub mod cells;
mod each_place;
pub mod faults;
pub mod fill;
pub mod lane;
pub mod lanes;
pub mod leads;
pub mod level;
pub mod passing;
mod place_view;
mod site_values;
pub mod sizes;
mod values;
mod vectors;
mod view;

pub use crate::lane::Lane;
pub use crate::lanes::{begin_block, new_lanes};
pub use crate::sizes::{MAX_LANE_PLACES, block_size};
