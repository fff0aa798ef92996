//! Compiles procedures to graphs.
#![tactic(auto)]

pub mod compile;
pub mod copies;
mod nodes;
mod reads;
mod steps;
mod tested;
