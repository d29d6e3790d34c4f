//! What a snapshot holds: the entries that pass its node's filters under nominal or its one variation, with the values of its
//! columns there, or the fault that keeps it from being made. Definitions and laws; nothing here runs. Stands on `rdf_model`,
//! `snapshot_plan` and `snapshot_text`.
#![tactic(auto)]

pub mod laws;
