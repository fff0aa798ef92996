//! Why a repair executed the records that it did.
#![tactic(auto)]

pub mod cause;
pub mod causes;
mod hits;
pub mod laws;
pub mod lines;
mod paths;
mod points;
mod reasons;
mod run;
mod touch;
mod walk;
