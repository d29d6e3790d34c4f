// Clusters, and the slots that claim them.

pub mod event;
pub mod span;
pub mod unions;
