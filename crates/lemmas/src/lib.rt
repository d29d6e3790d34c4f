//! Lemmas that proofs of many crates cite: of tests, orders, answers and lists.
#![tactic(auto)]
