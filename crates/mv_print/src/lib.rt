//! Prints a script as text.
#![tactic(auto)]

mod clauses;
mod expr;
mod items;
mod listed;
mod pieces;
pub mod print;
mod statements;
mod words;
