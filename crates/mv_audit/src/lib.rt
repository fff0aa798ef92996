//! The auditor: says whether a report is the text of a lawful run of a program.
#![tactic(auto)]

pub mod audit;
mod changes;
mod committing;
mod differing;
mod events;
mod hit;
mod judge;
mod kept;
pub mod laws;
mod lines;
mod paths;
mod rounds;
mod schedule;
mod steps;
mod trimming;
pub mod verdict;
mod walk;
