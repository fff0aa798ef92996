//! Views: the interface through which a procedure reads its tables.
#![tactic(auto)]

pub mod key_set;
mod narrow;
pub mod plain;
pub mod view;
