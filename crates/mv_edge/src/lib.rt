//! The input and output of the program: sources of bytes, sinks of bytes, and a pace.
#![tactic(auto)]

pub mod edge;
pub mod fault_plan;
pub mod memory_sink;
pub mod memory_source;
pub mod pace;
pub mod reading;
pub mod std_edge;
pub mod writing;
