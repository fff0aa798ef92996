//! The top call: from a command and its input to what is written.
#![tactic(auto)]

pub mod answer;
mod audit;
mod graphs;
mod input;
mod journals;
pub mod laws;
mod parts;
mod print;
pub mod refusal;
pub mod script;
mod serial;
pub mod status;
pub mod top;
mod tpcc;
mod why;
mod workers;
