//! Checks where a script passes a limit of the language.
#![tactic(auto)]

mod best;
mod cursor;
pub mod early;
pub mod late;
pub mod laws;
mod rows;
mod statements;
pub mod texts;
mod tokens;
