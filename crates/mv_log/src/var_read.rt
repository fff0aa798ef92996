//! The variables that a statement reads.

ghost use Rattle.std.specs.Prelude.{◌≡◌};

use std::marker::Model;

/// A variable that a statement reads, as `mv_record::record::Read` has it, in 12 bytes. Contracts see the `Read`.
#[derive(Clone, Copy)]
pub struct VarRead {
    slot: u16,
    definer: Option<u32>,
}

impl Model for VarRead {
    ghost use Rattle.mv_record.specs.declared.record.Read.{Read};

    ghost Value = { Read };

    ghost view = { λ r. record { slot = r.slot; definer = r.definer } };

    ghost inverse = { λ r. record { slot = r.slot; definer = r.definer } };
}

impl VarRead {
    /// Returns a read of a variable that this record set last, or none.
    pub fn of(slot: u16, definer: Option<u32>) -> VarRead
        ensures { result ≡ record { slot = slot; definer = definer } }
    {
        VarRead { slot, definer }
    }

    /// Returns the variable.
    pub fn slot(&self) -> u16
        ensures { result ≡ self.now.slot }
    {
        self.slot
    }

    /// Returns the number of the record that last set it, or `None` if it still has its initial value.
    pub fn definer(&self) -> Option<u32>
        ensures { result ≡ self.now.definer }
    {
        self.definer
    }
}
