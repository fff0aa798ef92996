//! What the text of a run or of graphs tells, and what its script adds.
#![tactic(auto)]

pub mod bars;
pub mod calls;
pub mod costs;
pub mod fault;
pub mod graph;
mod names;
mod rounds;
pub mod run;
pub mod statements;
mod tokens;
pub mod totals;
pub mod trace;
pub mod words;
