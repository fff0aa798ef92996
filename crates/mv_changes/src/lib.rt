//! The changes of commits: how they are made at a commit, kept since the oldest live start, and tried on a call's
//! records.
#![tactic(auto)]

pub mod changes;
mod columns;
pub mod commit;
pub mod hit;
pub mod recent;
pub mod validate;
