//! Pictures as SVG. Their text is well-formed XML, whatever words are in them.
#![tactic(auto)]

mod attribute;
pub mod content;
mod escape;
pub mod look;
mod number;
pub mod picture;
pub mod shape;
mod style;
