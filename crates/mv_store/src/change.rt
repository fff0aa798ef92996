//! Changes the versions under keys.

ghost use Rattle.std.specs.Prelude.{◌≡◌, ℕ, false, true, List as Seq};
ghost use Rattle.std.specs.Option.{option_copied};
ghost use Rattle.mv_values.specs.declared.value.Value.{Value};
ghost use Rattle.mv_chain.specs.Versions.{is_blank};
ghost use Rattle.mv_index.specs.Indexing.{Contents};
ghost use Rattle.mv_store.specs.Indexed.{IsTableIndex, IsIndexOf, IsOfTable};
ghost use Rattle.mv_store.specs.Kept.{versions_of, versions_at, table_keys_in, finished, MayFinish, after_change, MayChange, KeepsRows, AreFilled, AreFilledBut, IsChanged, AreChanged, AreDone};

use crate::entries::ValueIndex;
use crate::written_keys::TableKey;
use mv_chain::chain::Chain;
use mv_table::key_map::KeyMap;
use mv_values::list::List;
use mv_values::value::Key;

/// Whether the patch of a call becomes a commit or is dropped.
#[derive(Clone, Copy)]
pub(crate) enum Fate {
    Commit(u32),
    Gone,
}

/// A change of the versions under a key.
#[derive(Clone, Copy)]
pub(crate) enum VersionChange {
    /// Finishes the patch of a call.
    Finish(u32, Fate),
    /// Drops the rows before a commit.
    Collect(u32),
}

/// Finishes the patch of a call. It allocates no memory.
fn finish(chain: &mut Chain, call: u32, fate: Fate)
    requires { MayFinish fate call chain.old }
    ensures { chain.new ≡ finished fate call chain.old }
{
    match fate {
        Fate::Commit(n) => chain.stamp(call, n),
        Fate::Gone => chain.drop_of(call),
    }
}

/// Makes a change. It allocates no memory.
fn make(chain: &mut Chain, change: VersionChange)
    requires { MayChange change chain.old }
    ensures versions { chain.new ≡ after_change change chain.old }
    ensures rows { KeepsRows change chain.old chain.new }
{
    match change {
        VersionChange::Finish(call, fate) => finish(chain, call, fate),
        VersionChange::Collect(low) => chain.collect(low),
    }
}

/// Changes the versions under a key of a table. Returns whether blank versions are under the key then.
fn change_item(
    table: &mut KeyMap<Chain>,
    index: &mut ValueIndex,
    at: u8,
    key: &Key,
    to: VersionChange,
) -> bool
    requires { MayChange to (versions_of table.old key.now) }
    ensures index { IsTableIndex at table.old index.old → IsTableIndex at table.new index.new }
    ensures elsewhere { IsOfTable at index.old index.new }
    ensures versions { IsChanged key.now (after_change to) table.old table.new }
    ensures rows { KeepsRows to (versions_of table.old key.now) (versions_of table.new key.now) }
    ensures blank { result ≡ true → is_blank (versions_of table.new key.now) ≡ true }
    ensures filled { result ≡ false → AreFilled table.old → AreFilled table.new }
    ensures others { AreFilled table.old → AreFilledBut key.now table.new }
{
    let Some(chain) = table.get_mut(key) else {
        return false;
    };
    index.forget_lost(at, key, &*chain, to);
    make(chain, to);
    chain.is_blank()
}

/// Removes blank versions under a key of a table.
fn remove_blank(table: &mut KeyMap<Chain>, key: &Key)
    requires { is_blank (versions_of table.old key.now) ≡ true }
    ensures versions { IsChanged key.now (λ v. v) table.old table.new }
    ensures filled { AreFilledBut key.now table.old → AreFilled table.new }
    ensures index { (t : ℕ) (index : Contents) → IsTableIndex t table.old index → IsTableIndex t table.new index }
{
    table.take(key);
    let _len = table.len();
}

/// Changes the versions under a key of a table, and removes the key if they are blank then. The index loses the values
/// that the versions lose.
fn change_under(
    table: &mut KeyMap<Chain>,
    index: &mut ValueIndex,
    at: u8,
    key: &Key,
    to: VersionChange,
)
    requires { MayChange to (versions_of table.old key.now) }
    ensures index { IsTableIndex at table.old index.old → IsTableIndex at table.new index.new }
    ensures elsewhere { IsOfTable at index.old index.new }
    ensures versions { IsChanged key.now (after_change to) table.old table.new }
    ensures rows { KeepsRows to (versions_of table.old key.now) (versions_of table.new key.now) }
    ensures filled { AreFilled table.old → AreFilled table.new }
{
    if change_item(table, index, at, key, to) {
        remove_blank(table, key);
    }
}

/// Changes the versions at a key of a table.
fn change_at(
    tables: &mut Vec<KeyMap<Chain>>,
    index: &mut ValueIndex,
    table_key: &TableKey,
    to: VersionChange,
)
    requires { MayChange to (versions_at tables.old.items table_key.now.table table_key.now.key) }
    ensures versions { AreChanged table_key.now.table table_key.now.key (after_change to) tables.old.items tables.new.items }
    ensures rows { KeepsRows to (versions_at tables.old.items table_key.now.table table_key.now.key) (versions_at tables.new.items table_key.now.table table_key.now.key) }
    ensures index { IsIndexOf tables.old.items index.old → IsIndexOf tables.new.items index.new }
{
    let at = table_key.table as usize;
    if at >= tables.len() {
        return;
    }
    change_under(&mut tables[at], index, table_key.table, &table_key.key, to);
}

/// Changes the versions at these keys. It allocates no memory. Takes time logarithmic in the number of rows for each
/// key.
pub(crate) fn change_all(
    tables: &mut Vec<KeyMap<Chain>>,
    index: &mut ValueIndex,
    table_keys: &[TableKey],
    to: VersionChange,
)
    requires { (t : ℕ) (key : Seq Value) → MayChange to (versions_at tables.old.items t key) }
    ensures versions { AreDone (after_change to) table_keys.now tables.old.items tables.new.items }
    ensures rows { (t : ℕ) (key : Seq Value) → KeepsRows to (versions_at tables.old.items t key) (versions_at tables.new.items t key) }
    ensures index { IsIndexOf tables.old.items index.old → IsIndexOf tables.new.items index.new }
{
    for table_key in table_keys {
        change_at(tables, index, table_key, to);
    }
}

/// Finishes the patches of a call at the keys that are noted for it.
pub(crate) fn finish_noted(
    tables: &mut Vec<KeyMap<Chain>>,
    index: &mut ValueIndex,
    noted: Option<&List<TableKey>>,
    call: u32,
    fate: Fate,
)
    requires { (t : ℕ) (key : Seq Value) → MayFinish fate call (versions_at tables.old.items t key) }
    ensures versions { AreDone (finished fate call) (table_keys_in (option_copied noted.entry)) tables.old.items tables.new.items }
    ensures index { IsIndexOf tables.old.items index.old → IsIndexOf tables.new.items index.new }
{
    if let Some(table_keys) = noted {
        change_all(
            tables,
            index,
            table_keys.as_slice(),
            VersionChange::Finish(call, fate),
        );
    }
}
