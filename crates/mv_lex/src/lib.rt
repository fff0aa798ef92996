//! The tokens of a script.
#![tactic(auto)]

mod classes;
pub mod laws;
pub mod lexer;
mod piece;
pub mod token;
