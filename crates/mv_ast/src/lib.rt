//! The syntax tree of a script, and its grammar.
#![tactic(auto)]

pub mod lexeme;
pub mod limit;
pub mod tree;
