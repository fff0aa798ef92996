//! What two full runs of one call have in common: if no change hits the old run, the new one is equal; and the records
//! that a repair keeps are alike in both. Nothing here is executed.
#![tactic(auto)]

pub mod laws;
