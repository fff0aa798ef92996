//! The records of a full run of a procedure, and the variables that its statements read.
#![tactic(auto)]

pub mod laws;
pub mod reads;
