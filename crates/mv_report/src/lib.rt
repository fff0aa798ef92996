//! Writes runs, calls that ran alone, and graphs as text.
#![tactic(auto)]

mod history;
mod journal;
pub mod laws;
mod number;
pub mod render;
pub mod render_graphs;
pub mod render_serial;
mod replies;
mod tables;
