//! The script of a run, and how its calls run by the graphs of their procedures.
#![tactic(auto)]

pub mod columns;
pub mod laws;
pub mod script;
