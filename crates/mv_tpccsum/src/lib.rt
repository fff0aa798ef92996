//! Sums up a run of the generated workload.
#![tactic(auto)]

mod columns;
mod consistent;
mod counts;
pub mod summary;
mod text;
mod totals;
