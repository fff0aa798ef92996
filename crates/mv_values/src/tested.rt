//! Columns that are tested with `=`.

ghost use Rattle.std.specs.Prelude.{◌≡◌};
ghost use Rattle.mv_values.specs.Testing.{is_equality};

use crate::copied::Copied;
use crate::memory::NoMemory;
use crate::op::Op;
use std::alloc::Global;

/// A column of a table that a WHERE tests with `=`.
#[derive(Clone, Copy)]
pub struct Tested {
    pub table: u8,
    pub column: u8,
}

impl Copied for Tested {
    fn copy(&self, _alloc: Global) -> Result<Tested, NoMemory> {
        Ok(*self)
    }
}

/// Whether the comparison is `=`.
pub fn is_equality(op: Op) -> bool
    ensures { result ≡ is_equality op }
{
    match op {
        Op::Eq => true,
        _ => false,
    }
}
