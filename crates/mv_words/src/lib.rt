//! Reads the words of a command line.
#![tactic(auto)]

pub mod command;
mod program;
pub mod reading;
