//! The journal of a run, as data and as lines, and its outcome.
#![tactic(auto)]

pub mod event;
pub mod fault;
pub mod journal;
pub mod line;
pub mod outcome;
