//! What INSERT, UPDATE and DELETE check.
#![tactic(auto)]

pub mod check;
pub mod children;
pub mod parents;
