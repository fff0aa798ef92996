//! The log of a running call: its records, whose parts stand in shared lists that are used again from call to call.
#![tactic(auto)]

pub mod flat;
pub mod head;
mod lists;
pub mod log;
pub mod pred_ref;
pub mod record_ref;
pub mod records;
pub mod var_read;
