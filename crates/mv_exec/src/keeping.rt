//! What a call derives from its records: which record last set each variable.

ghost use Rattle.std.specs.Prelude.{◌≡◌, ℕ, Some, slice_set, OnOk};
ghost use Rattle.mv_exec.specs.Keeping.{define, with_room};
ghost use Rattle.mv_exec.specs.Tasks.{definer_in};

use mv_record::record::Slot;
use mv_values::list::List;
use mv_values::memory::NoMemory;

/// Extends the list of definers to at least this length. The definer of each variable is unchanged.
#[tactic(auto, using(crate::proofs::Defining::widen_longer, crate::proofs::Defining::room_full, crate::proofs::Defining::none_behind))]
pub(crate) fn widen(definers: &mut List<Option<u32>>, len: usize) -> Result<(), NoMemory>
    ensures ok { OnOk result (definers.new ≡ with_room len definers.old) }
    ensures same { (x : ℕ) → definer_in definers.new x ≡ definer_in definers.old x }
{
    while definers.len() < len {
        definers.push(None)?;
    }
    Ok(())
}

/// Records which record last set a variable. A variable past the end of the list is ignored.
fn set_definer(definers: &mut List<Option<u32>>, variable: u16, number: u32)
    ensures { definers.new ≡ slice_set definers.old variable (Some number) }
{
    if (variable as usize) < definers.len() {
        definers.set(variable as usize, Some(number));
    }
}

/// Records which record last set these variables. A variable past the end of the list is ignored.
pub(crate) fn set_definers(definers: &mut List<Option<u32>>, sets: &[Slot], number: u32)
    ensures { definers.new ≡ define definers.old sets.now number }
{
    for set in sets {
        set_definer(definers, set.slot, number);
    }
}
