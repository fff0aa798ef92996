//! A recursive-descent parser: it turns tokens into the syntax tree.
#![tactic(auto)]

mod blocks;
mod clauses;
mod expr;
pub mod fault;
mod items;
mod level;
mod lexing;
mod lists;
mod literals;
mod names;
mod operators;
pub mod parse;
mod reader;
mod single;
mod statements;
mod texts;
mod words;
