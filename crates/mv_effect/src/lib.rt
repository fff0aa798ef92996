//! The effect of one statement, over a view of the database and the call's own writes.
#![tactic(auto)]

mod asking;
mod changes;
mod checks;
mod context;
mod numbers;
mod predicates;
mod queries;
mod rows;
mod slots;
pub mod statement;
mod tableless;
