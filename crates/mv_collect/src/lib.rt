//! Collection: one call drops the versions of a store and the changes of commits that are no longer needed.
#![tactic(auto)]

pub mod collect;
