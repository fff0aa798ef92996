//! Maps and tables by key: stored rows in key order, and the span of keys that can satisfy tests.
#![tactic(auto)]

pub mod databases;
pub mod found;
pub mod found_rows;
pub mod key_map;
pub mod scan;
pub mod span;
pub mod table;
