//! Tables stored in versions.
//!
//! A store has a chain of versions under each key of each table. For each call it notes the keys that the call has
//! written. So a commit looks up only the keys that its call wrote. The keys of a commit are noted until its number is
//! the store's low. So a collection visits only the keys whose old versions it drops.
#![tactic(auto)]

mod change;
mod close;
mod collect;
mod count;
mod entries;
mod find;
mod open;
pub mod store;
mod tables;
pub mod view;
mod write;
mod written_keys;
