//! The entries that an index has of the versions under a key.

ghost use Rattle.std.specs.Prelude.{◌≡◌, ◌==◌, ◌&&◌, Some, map, IfOk, OnOk};
ghost use Rattle.std.specs.List.{list_any};
ghost use Rattle.std.specs.Option.{option_copied};
ghost use Rattle.mv_values.specs.Testing.{are_tested};
ghost use Rattle.mv_chain.specs.Versions.{Versions, collected};
ghost use Rattle.mv_chain.specs.Having.{is_value, row_has, item_has, patch_has, call_has, undos_have, has_value};
ghost use Rattle.mv_store.specs.Opened.{opened};
ghost use Rattle.mv_store.specs.Kept.{versions_in, finished, after_change, AllRise};
ghost use Rattle.mv_store.specs.Indexed.{IsIndexOf, Forgets, MayNote, HasNoted, Follows};

use crate::change::{Fate, VersionChange};
use mv_chain::chain::Chain;
use mv_chain::pending::Pending;
use mv_chain::undo::Undo;
use mv_index::cover::cover;
use mv_index::index::Index;
use mv_values::columns::value_in;
use mv_values::copied::Copied;
use mv_values::list::List;
use mv_values::memory::NoMemory;
use mv_values::patch::{Assign, Patch};
use mv_values::rows::Database;
use mv_values::tested::Tested;
use mv_values::value::{Key, Row, Value};
use std::alloc::Global;
use std::marker::Model;

/// Versions of which it can be told which values they have.
pub(crate) trait Valued {
    ghost versions: { Self → Versions };

    /// Whether one of the versions has a value in a column.
    fn has_value(&self, column: u8, value: &Value) -> bool
        ensures { result ≡ has_value column value.now (versions self.now) };
}

/// The versions under a key, if there are any.
#[derive(Clone, Copy)]
pub(crate) struct Present<'a> {
    pub(crate) chain: Option<&'a Chain>,
}

impl<'a> Valued for Present<'a> {
    ghost versions = { λ p. versions_in (option_copied p.chain) };

    fn has_value(&self, column: u8, value: &Value) -> bool {
        match self.chain {
            Some(chain) => chain.has_value(column, value),
            None => false,
        }
    }
}

/// Versions after a change that is still to be made.
#[derive(Clone, Copy)]
struct Ahead<'a> {
    chain: &'a Chain,
    change: VersionChange,
}

/// Whether versions have a value in a column once the patch of a call is finished.
fn has_finished(chain: &Chain, call: u32, fate: Fate, column: u8, value: &Value) -> bool
    ensures { result ≡ has_value column value.now (finished fate call chain.now) }
{
    match fate {
        Fate::Commit(_) => chain.has_stamped(call, column, value),
        Fate::Gone => chain.has_without(call, column, value),
    }
}

impl<'a> Valued for Ahead<'a> {
    ghost versions = { λ a. after_change a.change a.chain.now };

    fn has_value(&self, column: u8, value: &Value) -> bool {
        match self.change {
            VersionChange::Finish(call, fate) => {
                has_finished(self.chain, call, fate, column, value)
            }
            VersionChange::Collect(low) => self.chain.has_from(low, column, value),
        }
    }
}

/// Takes a key out from under a value of a column, unless one of the versions has the value.
fn forget_value<K: Valued>(
    index: &mut Index,
    table: u8,
    key: &Key,
    column: u8,
    value: &Value,
    kept: &K,
)
    ensures { Forgets table key.now (λ c v. (column == c) && is_value v value.now) (K.versions kept.now) index.old index.new }
{
    if !index.indexes(table, column) {
        return;
    }
    if kept.has_value(column, value) {
        return;
    }
    index.forget(table, column, value, key);
}

/// Takes a key out from under the values of items, but for those that one of the versions has.
fn forget_items<K: Valued>(index: &mut Index, table: u8, key: &Key, items: &[Assign], kept: &K)
    ensures { Forgets table key.now (λ c v. list_any (item_has c v) items.now) (K.versions kept.now) index.old index.new }
{
    for item in items {
        forget_value(index, table, key, item.column, &item.value, kept);
    }
}

/// Whether it is a column of this table.
fn is_of(column: Tested, table: u8) -> bool
    ensures { result ≡ (column.table == table) }
{
    column.table == table
}

/// Takes a key out from under the value of a row in one column, if the column is of the table, unless one of the versions
/// has the value.
fn forget_column<K: Valued>(
    index: &mut Index,
    table: u8,
    key: &Key,
    column: Tested,
    row: &Row,
    kept: &K,
)
    ensures { Forgets table key.now (λ c v. ((column.table == table) && (column.column == c)) && row_has c v (Some row.now)) (K.versions kept.now) index.old index.new }
{
    if !is_of(column, table) {
        return;
    }
    let zero = Value::Int(0);
    let value = value_in(row.as_slice(), column.column, &zero);
    forget_value(index, table, key, column.column, value, kept);
}

/// Takes a key out from under the values of a row in these columns, but for those that one of the versions has.
fn forget_row<K: Valued>(
    index: &mut Index,
    columns: &[Tested],
    table: u8,
    key: &Key,
    row: &Row,
    kept: &K,
)
    ensures { Forgets table key.now (λ c v. are_tested columns.now table c && row_has c v (Some row.now)) (K.versions kept.now) index.old index.new }
{
    for column in columns {
        forget_column(index, table, key, *column, row, kept);
    }
}

/// Puts a key under the values of items.
fn note_items(
    alloc: Global,
    index: &mut Index,
    table: u8,
    key: &Key,
    items: &[Assign],
) -> Result<(), NoMemory>
    ensures some { MayNote table key.now (λ c v. list_any (item_has c v) items.now) index.old index.new }
    ensures all { OnOk result (HasNoted table key.now (λ c v. list_any (item_has c v) items.now) index.new) }
{
    index.note_key(table, key)?;
    for item in items {
        index.note(alloc, table, item.column, &item.value, key)?;
    }
    Ok(())
}

/// Puts a key under the values that a patch gives. If memory runs out, it may be under some of them.
fn note_patch(
    alloc: Global,
    index: &mut Index,
    table: u8,
    key: &Key,
    patch: &Patch,
) -> Result<(), NoMemory>
    ensures some { MayNote table key.now (λ c v. patch_has c v patch.now) index.old index.new }
    ensures all { OnOk result (HasNoted table key.now (λ c v. patch_has c v patch.now) index.new) }
{
    match patch {
        Patch::Insert(row) => index.add(alloc, table, key, row),
        Patch::Set(items) => note_items(alloc, index, table, key, items.as_slice()),
        Patch::Delete => index.note_key(table, key),
    }
}

/// Whether it is a patch of this call.
fn is_by(pending: &Pending, call: u32) -> bool
    ensures { result ≡ (pending.now.call == call) }
{
    pending.call == call
}

/// An index of the values that the versions of rows have in some columns.
pub(crate) struct ValueIndex {
    columns: List<Tested>,
    index: Index,
}

impl Drop for ValueIndex {
    /// Drops the entries. A drop of its own is one step for who drops a store; a derived one is a step for each of its
    /// parts.
    fn drop(self) {
        let ValueIndex {
            columns: _,
            index: _,
        } = self;
    }
}

impl Model for ValueIndex {
    ghost use Rattle.mv_index.specs.Indexing.{Contents};
    ghost use Rattle.mv_store.specs.Indexed.{IsOfColumns};

    ghost Value = { Contents };

    ghost view = { λ i. i.index };

    ghost invariant = { λ i. IsOfColumns i.columns i.index };
}

impl ValueIndex {
    /// Returns an index of these columns that covers a database.
    pub(crate) fn new(
        alloc: Global,
        columns: &List<Tested>,
        opening: &Database,
    ) -> Result<ValueIndex, NoMemory>
        requires { AllRise (map opened opening.now) }
        ensures { IfOk result (λ index. IsIndexOf (map opened opening.now) index) }
    {
        let index = cover(alloc, columns, opening)?;
        let columns = columns.copy(alloc)?;
        Ok(ValueIndex { columns, index })
    }

    /// Borrows the entries.
    pub(crate) fn entries(&self) -> &Index
        ensures { result.now ≡ self.now }
    {
        &self.index
    }

    /// Puts a key under the values that a patch gives. If memory runs out, it may be under some of them.
    pub(crate) fn note(
        &mut self,
        alloc: Global,
        table: u8,
        key: &Key,
        patch: &Patch,
    ) -> Result<(), NoMemory>
        ensures some { MayNote table key.now (λ c v. patch_has c v patch.now) self.old self.new }
        ensures all { OnOk result (HasNoted table key.now (λ c v. patch_has c v patch.now) self.new) }
    {
        note_patch(alloc, &mut self.index, table, key, patch)
    }

    /// Takes a key out from under the values that a patch gives, but for those that one of the versions has. It allocates
    /// no memory.
    pub(crate) fn forget<K: Valued>(&mut self, table: u8, key: &Key, patch: &Patch, kept: &K)
        ensures { Forgets table key.now (λ c v. patch_has c v patch.now) (K.versions kept.now) self.old self.new }
    {
        match patch {
            Patch::Insert(row) => {
                forget_row(
                    &mut self.index,
                    self.columns.as_slice(),
                    table,
                    key,
                    row,
                    kept,
                );
            }
            Patch::Set(items) => {
                forget_items(&mut self.index, table, key, items.as_slice(), kept);
            }
            Patch::Delete => {}
        }
    }

    /// Does so with the patch of a call, if this is one.
    fn forget_pending<K: Valued>(
        &mut self,
        table: u8,
        key: &Key,
        pending: &Pending,
        call: u32,
        kept: &K,
    )
        ensures { Forgets table key.now (λ c v. (pending.now.call == call) && patch_has c v pending.now.patch) (K.versions kept.now) self.old self.new }
    {
        if !is_by(pending, call) {
            return;
        }
        self.forget(table, key, &pending.patch, kept);
    }

    /// Does so with each patch of a call.
    fn forget_call<K: Valued>(&mut self, table: u8, key: &Key, own: &[Pending], call: u32, kept: &K)
        ensures { Forgets table key.now (λ c v. call_has c v call own.now) (K.versions kept.now) self.old self.new }
    {
        for pending in own {
            self.forget_pending(table, key, pending, call, kept);
        }
    }

    /// Does so with what undoes each of these commits.
    fn forget_undos<K: Valued>(&mut self, table: u8, key: &Key, undos: &[Undo], kept: &K)
        ensures { Forgets table key.now (λ c v. undos_have c v undos.now) (K.versions kept.now) self.old self.new }
    {
        for undo in undos {
            self.forget(table, key, &undo.patch, kept);
        }
    }

    /// Takes a key out from under the values that its versions lose once the patch of a call is finished.
    fn forget_finished(&mut self, table: u8, key: &Key, chain: &Chain, call: u32, fate: Fate)
        ensures { Follows table key.now chain.now (finished fate call chain.now) self.old self.new }
    {
        let change = VersionChange::Finish(call, fate);
        let kept = Ahead { chain, change };
        self.forget_call(table, key, chain.own(), call, &kept);
    }

    /// Takes a key out from under the values that its versions lose once the rows before a commit are dropped.
    fn forget_collected(&mut self, table: u8, key: &Key, chain: &Chain, low: u32)
        ensures { Follows table key.now chain.now (collected low chain.now) self.old self.new }
    {
        let change = VersionChange::Collect(low);
        let kept = Ahead { chain, change };
        self.forget_undos(table, key, chain.dropped(low), &kept);
    }

    /// Takes a key out from under the values that its versions lose by a change, before the change is made. It allocates
    /// no memory.
    pub(crate) fn forget_lost(&mut self, table: u8, key: &Key, chain: &Chain, change: VersionChange)
        ensures { Follows table key.now chain.now (after_change change chain.now) self.old self.new }
    {
        match change {
            VersionChange::Finish(call, fate) => {
                self.forget_finished(table, key, chain, call, fate);
            }
            VersionChange::Collect(low) => self.forget_collected(table, key, chain, low),
        }
    }
}
