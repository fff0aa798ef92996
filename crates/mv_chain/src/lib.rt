//! The versions of a row.
//!
//! A chain stores its newest row whole. For each commit since the last collection it also stores what undoes that
//! commit: the old values of the columns that it set, or the old row if it inserted or deleted. A read at the newest
//! number returns the newest row. An older read undoes the commits after its number, and looks at no others. A chain
//! without commits and patches stores its row alone, and no lists.
#![tactic(auto)]

pub mod chain;
pub mod column;
mod commit;
mod compose;
mod history;
pub mod laws;
pub mod pending;
pub mod undo;
