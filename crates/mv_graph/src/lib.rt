//! What is known of a procedure before it runs: its statements, and which of them may depend on which.
#![tactic(auto)]

pub mod graph;
