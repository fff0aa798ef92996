//! Translates the syntax tree of a script into a program: checks names and types, and replaces names by numbers.
#![tactic(auto)]

pub mod build;
mod build_exprs;
mod build_names;
mod build_statements;
pub mod refused;
pub mod resolve;
pub mod slot;
