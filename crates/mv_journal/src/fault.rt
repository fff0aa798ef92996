//! The reasons why a journal can't be read.

use mv_values::memory::NoMemory;

/// The reasons why a journal can't be read.
#[derive(Clone, Copy)]
pub enum LineFault {
    /// The line isn't an event, and all lines before it are. Lines are counted from 1.
    Line { n: u32 },
    /// Memory ran out.
    NoMemory,
}

impl From<NoMemory> for LineFault {
    ghost use Rattle.std.specs.Prelude.{◌≡◌};
    ghost use Rattle.mv_journal.specs.declared.fault.LineFault.TheVariants as fault;

    ghost from_gives = { λ _ e. e ≡ fault.NoMemory };

    fn from(_error: NoMemory) -> LineFault {
        LineFault::NoMemory
    }
}
