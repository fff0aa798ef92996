//! Joins two patches into one.

ghost use Rattle.std.specs.Prelude.{◌≡◌, OnOk, OnErr};
ghost use Rattle.mv_chain.specs.Versions.{joined};

use crate::commit::{set_columns, set_more};
use mv_values::memory::NoMemory;
use mv_values::patch::Patch;

/// Makes a patch do the work of both: first its own, then that of a second one. If memory runs out, the patch is
/// unchanged.
pub(crate) fn compose(first: &mut Patch, second: Patch) -> Result<(), NoMemory>
    ensures ok { OnOk result (first.new ≡ joined first.old second) }
    ensures err { OnErr result (first.new ≡ first.old) }
{
    match second {
        Patch::Set(items) => match first {
            Patch::Insert(row) => {
                let mut items = items;
                set_columns(row, &mut items);
                Ok(())
            }
            Patch::Set(own) => set_more(own, items),
            Patch::Delete => Ok(()),
        },
        whole => {
            *first = whole;
            Ok(())
        }
    }
}
