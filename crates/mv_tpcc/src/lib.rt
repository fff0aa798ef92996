//! The tables and procedures of TPC-C, as a script.
#![tactic(auto)]

mod procedures;
pub mod script;
mod tables;
