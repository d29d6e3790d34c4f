//! Laws of an event loop that goes block by block: how a cluster is cut, how its first fault is that of a block, and how much it may
//! evaluate. It stands on `rdf_model`; nothing here runs.
#![tactic(auto)]

pub mod laws;
