//! What all writes to a key did.

ghost use Rattle.std.specs.Prelude.{◌≡◌, ◌<◌, ◌++◌, ◌∷◌, [], List, IfOk, IfSome, length, map};
ghost use Rattle.std.specs.Option.{option_copied, option_map};
ghost use Rattle.mv_values.specs.declared.patch.Write.{Write};
ghost use Rattle.mv_record.specs.Writes.{writes_on};
ghost use Rattle.mv_undo.specs.Indexing.{IsComposed, IsLastOn, IsComposedOf, DoesAll, patch_at, patch_or};
ghost use Rattle.mv_undo.specs.Owning.{is_whole};

use crate::items::Items;
use mv_record::composing::compose;
use mv_values::memory::NoMemory;
use mv_values::patch::{Patch, Write};
use std::alloc::Global;

/// Whether a patch leaves the same row, whatever row was there.
pub(crate) fn is_whole(patch: &Patch) -> bool
    ensures { result ≡ is_whole patch.now }
{
    match patch {
        Patch::Insert(_) => true,
        Patch::Set(_) => false,
        Patch::Delete => true,
    }
}

/// Returns the patch that is kept for the write at a place.
fn patch_at<'a>(items: &Items<'a>, composed: &'a [Option<Patch>], place: usize) -> &'a Patch
    requires items { place < length items.now }
    requires composed { place < length composed.now }
    ensures { result.now ≡ patch_at items.now composed.now place }
{
    match &composed[place] {
        Some(patch) => patch,
        None => &items.write(place).patch,
    }
}

/// Returns the patch that is kept for the write at a place, if a place is given.
pub(crate) fn patch_up_to<'a>(
    items: &Items<'a>,
    composed: &'a [Option<Patch>],
    last: Option<usize>,
) -> Option<&'a Patch>
    requires composed { IsComposed items.now composed.now }
    requires last { IfSome last (λ place. place < length items.now) }
    ensures { option_copied result ≡ option_map (patch_at items.now composed.now) last }
{
    match last {
        Some(place) => Some(patch_at(items, composed, place)),
        None => None,
    }
}

/// Returns the patch to be kept for a write after others to its key: what a first patch and then the write do. `None` if
/// there are no others, and its own patch does.
fn patch_after(
    alloc: Global,
    first: Option<&Patch>,
    write: &Write,
) -> Result<Option<Patch>, NoMemory>
    ensures { IfOk result (λ made. (ws : List Write) → DoesAll (option_copied first.entry) ws → IsComposedOf (patch_or made write.now.patch) (ws ++ write.now ∷ [])) }
{
    match first {
        Some(patch) => Ok(Some(compose(alloc, patch, &write.patch)?)),
        None => Ok(None),
    }
}

/// Returns the patch to be kept for a new write, given the place of the last write to its key, if there is one: what the
/// writes to its key and then itself do. `None` if its own patch does that, as a whole row and a deletion always do.
pub(crate) fn patch_with(
    alloc: Global,
    items: &Items<'_>,
    composed: &[Option<Patch>],
    last: Option<usize>,
    write: &Write,
) -> Result<Option<Patch>, NoMemory>
    requires composed { IsComposed items.now composed.now }
    requires last { IsLastOn items.now write.now.table write.now.key last }
    ensures { IfOk result (λ made. IsComposedOf (patch_or made write.now.patch) (writes_on write.now.table write.now.key (map (λ o. o.write) items.now) ++ write.now ∷ [])) }
{
    match &write.patch {
        Patch::Insert(_) => Ok(None),
        Patch::Delete => Ok(None),
        Patch::Set(_) => {
            let first = patch_up_to(items, composed, last);
            patch_after(alloc, first, write)
        }
    }
}
