//! Adds writes of calls.

ghost use Rattle.std.specs.Prelude.{◌≡◌, ◌||◌, false, IfOk, OnOk, OnErr, MatchOption};
ghost use Rattle.std.specs.Option.{is_some, option_copied};
ghost use Rattle.mv_chain.specs.Versions.{own_of, with_patch};
ghost use Rattle.mv_chain.specs.Having.{patch_has, earlier_has};
ghost use Rattle.mv_store.specs.Indexed.{IsTableIndex, IsOfTable, MayNote, HasNoted, Forgets};
ghost use Rattle.mv_store.specs.Kept.{versions_in, versions_of, AreFilled, IsChanged, table_keys_of, HasTableKey, KeepsTableKeys};

use crate::entries::{Present, ValueIndex};
use crate::written_keys::{TableKey, WrittenKeys};
use mv_chain::chain::Chain;
use mv_table::key_map::KeyMap;
use mv_values::copied::Copied;
use mv_values::memory::NoMemory;
use mv_values::patch::{Patch, Write};
use mv_values::value::Key;
use std::alloc::Global;

/// Notes the key of a write.
fn note(
    alloc: Global,
    table_keys: &mut WrittenKeys,
    call: u32,
    write: &Write,
) -> Result<(), NoMemory>
    ensures kept { KeepsTableKeys table_keys.old table_keys.new }
    ensures noted { OnOk result (HasTableKey write.now.table write.now.key (table_keys_of table_keys.new call)) }
{
    let key = write.key.copy(alloc)?;
    let table_key = TableKey {
        table: write.table,
        key,
    };
    table_keys.note(alloc, call, table_key)
}

/// Copies a patch, if there is one.
fn copy_patch(alloc: Global, patch: Option<&Patch>) -> Result<Option<Patch>, NoMemory>
    ensures { IfOk result (λ copy. copy ≡ option_copied patch.entry) }
{
    match patch {
        Some(patch) => Ok(Some(patch.copy(alloc)?)),
        None => Ok(None),
    }
}

/// Adds the patch of a write, and notes its key if the call had no patch there. Returns a copy of the patch that it had.
fn put_patch(
    alloc: Global,
    chain: &mut Chain,
    table_keys: &mut WrittenKeys,
    call: u32,
    write: &Write,
) -> Result<Option<Patch>, NoMemory>
    ensures ok { OnOk result (chain.new ≡ with_patch call write.now.patch chain.old) }
    ensures err { OnErr result (chain.new ≡ chain.old) }
    ensures earlier { IfOk result (λ earlier. earlier ≡ own_of call chain.old.own) }
    ensures kept { KeepsTableKeys table_keys.old table_keys.new }
    ensures noted { OnOk result (is_some (own_of call chain.old.own) ≡ false → HasTableKey write.now.table write.now.key (table_keys_of table_keys.new call)) }
{
    let patch = write.patch.copy(alloc)?;
    let earlier = copy_patch(alloc, chain.own_of(call))?;
    if !chain.has_own(call) {
        note(alloc, table_keys, call, write)?;
    }
    chain.put(call, patch)?;
    Ok(earlier)
}

/// Adds a write to the versions under its key. Returns a copy of the patch that the call had there. If memory runs out,
/// the versions are unchanged.
fn put_chain(
    alloc: Global,
    table: &mut KeyMap<Chain>,
    table_keys: &mut WrittenKeys,
    call: u32,
    write: &Write,
) -> Result<Option<Patch>, NoMemory>
    ensures ok { OnOk result (IsChanged write.now.key (with_patch call write.now.patch) table.old table.new) }
    ensures err { OnErr result (IsChanged write.now.key (λ v. v) table.old table.new) }
    ensures earlier { IfOk result (λ earlier. earlier ≡ own_of call (versions_of table.old write.now.key).own) }
    ensures kept { KeepsTableKeys table_keys.old table_keys.new }
    ensures filled { AreFilled table.old → AreFilled table.new }
    ensures noted { OnOk result (is_some (own_of call (versions_of table.old write.now.key).own) ≡ false → HasTableKey write.now.table write.now.key (table_keys_of table_keys.new call)) }
{
    if let Some(chain) = table.get_mut(&write.key) {
        return put_patch(alloc, chain, table_keys, call, write);
    }
    let mut chain = Chain::new(alloc, None);
    let earlier = put_patch(alloc, &mut chain, table_keys, call, write)?;
    let key = write.key.copy(alloc)?;
    table.put(key, chain)?;
    Ok(earlier)
}

/// Puts the key of a write under the values that its patch gives, and then adds the write to the versions under the key.
/// Returns a copy of the patch that the call had there.
fn note_and_put(
    alloc: Global,
    table: &mut KeyMap<Chain>,
    index: &mut ValueIndex,
    table_keys: &mut WrittenKeys,
    call: u32,
    write: &Write,
) -> Result<Option<Patch>, NoMemory>
    ensures ok { OnOk result (IsChanged write.now.key (with_patch call write.now.patch) table.old table.new) }
    ensures err { OnErr result (IsChanged write.now.key (λ v. v) table.old table.new) }
    ensures earlier { IfOk result (λ earlier. earlier ≡ own_of call (versions_of table.old write.now.key).own) }
    ensures kept { KeepsTableKeys table_keys.old table_keys.new }
    ensures filled { AreFilled table.old → AreFilled table.new }
    ensures noted { OnOk result (is_some (own_of call (versions_of table.old write.now.key).own) ≡ false → HasTableKey write.now.table write.now.key (table_keys_of table_keys.new call)) }
    ensures some { MayNote write.now.table write.now.key (λ c v. patch_has c v write.now.patch) index.old index.new }
    ensures all { OnOk result (HasNoted write.now.table write.now.key (λ c v. patch_has c v write.now.patch) index.new) }
{
    index.note(alloc, write.table, &write.key, &write.patch)?;
    put_chain(alloc, table, table_keys, call, write)
}

/// Takes a key out from under the values that a patch, if there is one, gives, but for those that the versions have.
fn forget_earlier(
    index: &mut ValueIndex,
    table: u8,
    key: &Key,
    earlier: Option<&Patch>,
    kept: &Present<'_>,
)
    ensures { Forgets table key.now (λ c v. earlier_has c v (option_copied earlier.entry)) (versions_in (option_copied kept.now.chain)) index.old index.new }
{
    match earlier {
        Some(earlier) => index.forget(table, key, earlier, kept),
        None => {}
    }
}

/// Takes the key of a write out from under the values that its patch and the earlier one of its call give, but for those
/// that the versions under the key have.
fn forget_unused(
    table: &KeyMap<Chain>,
    index: &mut ValueIndex,
    write: &Write,
    earlier: Option<&Patch>,
)
    ensures { Forgets write.now.table write.now.key (λ c v. patch_has c v write.now.patch || earlier_has c v (option_copied earlier.entry)) (versions_of table.now write.now.key) index.old index.new }
{
    let chain = table.get(&write.key);
    let kept = Present { chain };
    index.forget(write.table, &write.key, &write.patch, &kept);
    forget_earlier(index, write.table, &write.key, earlier, &kept);
}

/// Does so where the call had a patch under the key: only then the new one may have taken values away.
fn forget_replaced(
    table: &KeyMap<Chain>,
    index: &mut ValueIndex,
    write: &Write,
    earlier: Option<&Patch>,
)
    ensures { MatchOption (option_copied earlier.entry) (index.new ≡ index.old) (λ was. Forgets write.now.table write.now.key (λ c v. patch_has c v write.now.patch || patch_has c v was) (versions_of table.now write.now.key) index.old index.new) }
{
    match earlier {
        Some(earlier) => forget_unused(table, index, write, Some(earlier)),
        None => {}
    }
}

/// Adds a write to its table. Takes time logarithmic in the number of rows. If memory runs out, the versions are
/// unchanged, and so are the entries of the index.
pub(crate) fn put_write(
    alloc: Global,
    table: &mut KeyMap<Chain>,
    index: &mut ValueIndex,
    table_keys: &mut WrittenKeys,
    call: u32,
    write: &Write,
) -> Result<(), NoMemory>
    ensures ok { OnOk result (IsChanged write.now.key (with_patch call write.now.patch) table.old table.new) }
    ensures err { OnErr result (IsChanged write.now.key (λ v. v) table.old table.new) }
    ensures kept { KeepsTableKeys table_keys.old table_keys.new }
    ensures filled { AreFilled table.old → AreFilled table.new }
    ensures noted { OnOk result (is_some (own_of call (versions_of table.old write.now.key).own) ≡ false → HasTableKey write.now.table write.now.key (table_keys_of table_keys.new call)) }
    ensures index { IsTableIndex write.now.table table.old index.old → IsTableIndex write.now.table table.new index.new }
    ensures elsewhere { IsOfTable write.now.table index.old index.new }
{
    match note_and_put(alloc, table, index, table_keys, call, write) {
        Ok(earlier) => {
            forget_replaced(&*table, index, write, earlier.as_ref());
            Ok(())
        }
        Err(error) => {
            forget_unused(&*table, index, write, None);
            Err(error)
        }
    }
}
