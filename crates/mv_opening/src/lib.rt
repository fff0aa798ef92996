//! Makes the database that the calls of a script begin with.
#![tactic(auto)]

pub mod fault;
pub mod fitting;
pub mod opening;
pub mod parents;
