//! Programs: scripts in which numbers replace names, and when such a program is well formed.
#![tactic(auto)]

pub mod resolved;
pub mod sizes;
