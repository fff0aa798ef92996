//! The writes of a running call.
#![tactic(auto)]

pub mod ends;
mod index;
mod items;
mod links;
mod lookup;
mod merge;
mod overlay;
pub mod own_index;
pub mod own_writes;
pub mod place;
mod state;
pub mod undo;
