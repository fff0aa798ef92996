//! The law of journals: which event is allowed where, and the outcome of a journal.
#![tactic(auto)]

pub mod fault;
pub mod laws;
pub mod places;
