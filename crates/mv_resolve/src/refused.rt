//! The errors of resolving a script.

use mv_values::memory::NoMemory;

/// Why a script was not resolved: its first fault, with the number of the fault's token, or lack of memory. If several
/// faults are at one token, the one listed first here counts.
#[derive(Clone, Copy)]
pub enum NameFault {
    /// A table, column, procedure, variable, loop or key column that isn't declared.
    UnknownName { token: u32 },
    /// A second table, procedure, column, key column, parameter, variable, enclosing loop or SET column with the same
    /// name.
    DoubleName { token: u32 },
    /// A value or list whose type or length doesn't fit its place, or a target that isn't a declared variable.
    WrongType { token: u32 },
    /// A key column in the SET list of an UPDATE.
    KeyAssigned { token: u32 },
    /// An item after an item of a later kind, or a second journal.
    Late { token: u32 },
    /// A table that a READ ONLY procedure changes.
    Writes { token: u32 },
    /// Memory ran out.
    NoMemory,
}

impl From<NoMemory> for NameFault {
    ghost use Rattle.std.specs.Prelude.{◌≡◌};
    ghost use Rattle.mv_resolve.specs.declared.refused.NameFault.TheVariants as fault;

    ghost from_gives = { λ _ e. e ≡ fault.NoMemory };

    fn from(_error: NoMemory) -> NameFault {
        NameFault::NoMemory
    }
}
