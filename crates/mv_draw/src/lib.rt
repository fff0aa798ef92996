//! Pictures of runs and of graphs.
#![tactic(auto)]

mod bins;
pub mod diagram;
mod histogram;
mod legend;
mod pixels;
mod rows;
pub mod run;
mod scale;
mod timeline;
