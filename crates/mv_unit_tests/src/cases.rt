//! Helpers for tables of cases.

use std::alloc::Global;
use std::test::Fail;

/// Fails with the number of a case in its table, from 0, unless the condition holds.
pub(crate) fn ensure_at(alloc: Global, holds: bool, case: usize) -> Result<(), Fail> {
    if holds {
        return Ok(());
    }
    Err(format!(in alloc; "case {case}")?.into())
}

/// Returns a text between two others.
pub(crate) fn between(alloc: Global, front: &str, text: &str, back: &str) -> Result<String, Fail> {
    let mut all = String::from_str(alloc, front)?;
    all.push_str(text)?;
    all.push_str(back)?;
    Ok(all)
}
