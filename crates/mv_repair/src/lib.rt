//! Repair: a call is run again on a later database, and keeps what a stated rule says. Only the other records are
//! executed.
#![tactic(auto)]

mod hits;
mod keys;
mod paths;
pub mod repair;
mod touch;
mod walk;
