//! What the crates of tests share: a script of accounts, and a check of a case.
#![tactic(auto)]

pub mod accounts;
pub mod ensure;
