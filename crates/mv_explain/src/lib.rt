//! Tells why the repairs of a journal executed the records that they did.
#![tactic(auto)]

mod before;
pub mod explain;
