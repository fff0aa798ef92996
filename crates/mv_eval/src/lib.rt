//! The meaning of a call that runs alone, and the functions that evaluate its parts: expressions, variables, the rows
//! that match, and the rows that are made.
#![tactic(auto)]

pub mod chosen;
pub mod enter;
pub mod env;
pub mod expr;
pub mod extremes;
pub mod find;
pub mod fixing;
mod foremost;
pub mod known;
pub mod line;
pub mod made;
pub mod order;
pub mod state;
pub mod totals;
