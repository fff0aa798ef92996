//! The generated scripts of TPC-C: tables, procedures, rows and calls.
#![tactic(auto)]

mod calls;
mod draws;
pub mod load;
mod names;
mod request;
mod requests;
mod rows;
mod table;
mod tables;
pub mod workload;
mod writing;
