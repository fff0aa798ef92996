//! The whole-table machine: executes procedures whose calls run alone, one after another.
#![tactic(auto)]

pub mod calls;
mod change;
mod children;
mod deleting;
mod inserting;
mod parents;
mod run;
mod statements;
mod totals;
mod updating;
