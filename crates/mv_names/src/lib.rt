//! Checks names and types: all faults of a script, and the first of them.
#![tactic(auto)]

mod bodies;
pub mod check;
mod exprs;
pub mod fault;
pub mod index;
mod items;
mod labels;
pub mod named;
pub mod nested;
pub mod parts;
pub mod scope;
mod statements;
pub mod tables;
mod writes;
