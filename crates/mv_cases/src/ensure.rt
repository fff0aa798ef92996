//! A check of a case in a table of cases.

ghost use Rattle.std.specs.Prelude.{◌≡◌, true, OnOk};

use std::alloc::Global;
use std::test::Fail;

/// Fails with the text of a case unless the condition holds.
pub fn ensure(alloc: Global, holds: bool, case: &str) -> Result<(), Fail>
    ensures { OnOk result (holds ≡ true) }
{
    if holds {
        return Ok(());
    }
    Err(String::from_str(alloc, case)?.into())
}
