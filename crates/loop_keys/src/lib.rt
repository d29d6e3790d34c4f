//! What an event loop works on, and by which keys: a site under nominal or a variation on which it depends has a key, and a row says
//! where what an expression reads stands. It stands on `graph`, whose numbers it reads, and on `columns`.
#![tactic(auto)]

pub mod job;
pub mod reading;
pub mod rows;

pub use crate::job::Job;
pub use crate::reading::Held;
