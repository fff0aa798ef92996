//! The rows of a database in eight shards, each in versions behind its own lock.
#![tactic(auto)]

mod copies;
pub mod fixing;
mod found;
mod four_to_seven;
pub mod leave;
pub mod ledger;
mod notes;
mod opening;
pub mod parts;
pub mod pinned;
mod reads;
mod shard_list;
mod shard_store;
pub mod shards;
pub mod start;
mod two_to_seven;
pub mod view;
