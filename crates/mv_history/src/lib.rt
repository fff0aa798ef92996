//! Histories: what commits change, which records of a call a change hits, and which records a repair keeps. Only what
//! is done with one change is executed: its copy, one more write, and whether its row stays the same.
#![tactic(auto)]

pub mod change;
pub mod laws;
