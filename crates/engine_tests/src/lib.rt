//! Tests that need several crates: texts of expressions are read, printed, checked and evaluated over given columns, by both
//! evaluators where no part is a vector; and what no program reaches below, as functions that are refused and the machine of events.
#![tactic(auto)]

#[cfg(test)]
mod answer;
#[cfg(test)]
mod calls;
pub mod cells;
#[cfg(test)]
mod functions;
#[cfg(test)]
mod machine;
#[cfg(test)]
mod tables;
#[cfg(test)]
mod texts;
#[cfg(test)]
mod words;
