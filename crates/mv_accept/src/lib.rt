//! Turns the bytes of a script into a program, or into the reason why the script is refused.
#![tactic(auto)]

pub mod accept;
pub mod refusal;
