//! Secondary indexes: the keys of a table's rows by the values of other columns, and a view that looks rows up through
//! them.
#![tactic(auto)]

mod column;
pub mod cover;
mod few_keys;
pub mod index;
pub mod indexable;
pub mod keys;
mod lens;
mod look;
pub mod view;
