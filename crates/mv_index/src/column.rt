//! The index of one column.

ghost use Rattle.std.specs.Prelude.{◌≡◌, ◌<◌, ◌==◌, ◌||◌, ◌&&◌, [], not, true, length, List, IfSome, OnOk, OnErr};
ghost use Rattle.std.specs.List.{position};
ghost use Rattle.std.specs.BTreeMap.{is_at};
ghost use Rattle.std.specs.Map.{lookup};
ghost use Rattle.std.specs.Option.{option_copied};
ghost use Rattle.mv_values.specs.declared.value.Value.{Value};
ghost use Rattle.mv_values.specs.Order.{value_order};
ghost use Rattle.mv_index.specs.Indexing.{keys_at, has_key, is_pair, is_of, no_pair, Gains, Grows, HasKey, Shrinks};

use crate::keys::Keys;
use mv_values::columns::value_in;
use mv_values::copied::Copied;
use mv_values::memory::NoMemory;
use mv_values::tested::Tested;
use mv_values::value::{Key, Value};
use std::alloc::Global;
use std::collections::BTreeMap;
use std::marker::Model;

/// The keys of a table's rows by their values in one column. No value is without keys.
#[derive(Drop)]
pub(crate) struct ColumnIndex {
    table: u8,
    column: u8,
    values: BTreeMap<Value, Keys>,
}

impl Model for ColumnIndex {
    ghost use Rattle.mv_index.specs.Indexing.{Column};

    ghost Value = { Column };

    ghost view = { λ p. record { table = p.table; column = p.column; entries = p.values.entries } };
}

/// Puts a key under a value. Takes time logarithmic in the number of values and of keys. If memory runs out, the same
/// keys are under each value.
fn put_key(
    alloc: Global,
    values: &mut BTreeMap<Value, Keys>,
    value: &Value,
    key: &Key,
) -> Result<(), NoMemory>
    ensures ok { OnOk result ((v : Value) (k : List Value) → has_key values.new.entries v k ≡ (has_key values.old.entries v k || is_pair value.now key.now v k)) }
    ensures err { OnErr result ((v : Value) (k : List Value) → has_key values.new.entries v k ≡ has_key values.old.entries v k) }
{
    let key = key.copy(alloc)?;
    if let Some(keys) = values.get_mut(value) {
        return keys.put(alloc, key);
    }
    values.insert(value.copy(alloc)?, Keys::of(key))?;
    Ok(())
}

/// Takes a key out from under a value. Returns whether no key is left there.
fn take_there(values: &mut BTreeMap<Value, Keys>, value: &Value, key: &Key) -> bool
    ensures keys { (v : Value) (k : List Value) → has_key values.new.entries v k ≡ (has_key values.old.entries v k && not (is_pair value.now key.now v k)) }
    ensures none { result ≡ true → keys_at values.new.entries value.now ≡ [] }
{
    let Some(keys) = values.get_mut(value) else {
        return false;
    };
    keys.take(key);
    keys.len() == 0
}

/// Removes a value without keys.
fn remove_value(values: &mut BTreeMap<Value, Keys>, value: &Value)
    requires { keys_at values.old.entries value.now ≡ [] }
    ensures { (v : Value) (k : List Value) → has_key values.new.entries v k ≡ has_key values.old.entries v k }
{
    values.remove(value);
}

/// Takes a key out from under a value. Takes time logarithmic in the number of values and of keys, and allocates no
/// memory.
fn take_key(values: &mut BTreeMap<Value, Keys>, value: &Value, key: &Key)
    ensures { (v : Value) (k : List Value) → has_key values.new.entries v k ≡ (has_key values.old.entries v k && not (is_pair value.now key.now v k)) }
{
    if take_there(values, value, key) {
        remove_value(values, value);
    }
}

impl ColumnIndex {
    /// Returns the empty index of a column. It allocates no memory.
    pub(crate) fn new(alloc: Global, tested: Tested) -> ColumnIndex
        ensures table { result.table ≡ tested.table }
        ensures column { result.column ≡ tested.column }
        ensures entries { result.entries ≡ [] }
    {
        ColumnIndex {
            table: tested.table,
            column: tested.column,
            values: BTreeMap::new(alloc),
        }
    }

    /// Whether it is the index of this column.
    fn is_of(&self, table: u8, column: u8) -> bool
        ensures { result ≡ is_of table column self.now }
    {
        self.table == table && self.column == column
    }

    /// Whether it is the index of a column of this table.
    fn is_in(&self, table: u8) -> bool
        ensures { result ≡ (self.now.table == table) }
    {
        self.table == table
    }

    /// Returns the keys under a value, if there are any. Takes time logarithmic in the number of values.
    pub(crate) fn keys_under(&self, value: &Value) -> Option<&Keys>
        ensures { option_copied result ≡ lookup (is_at (value_order value.now)) self.now.entries }
    {
        self.values.get(value)
    }

    /// Puts the key of a row under the row's value, if the row is of its table. A column that the row lacks counts as 0.
    pub(crate) fn put(
        &mut self,
        alloc: Global,
        table: u8,
        key: &Key,
        row: &[Value],
    ) -> Result<(), NoMemory>
        ensures grows { Grows table key.now row.now self.old self.new }
        ensures has { OnOk result (HasKey table key.now row.now self.new) }
    {
        if !self.is_in(table) {
            return Ok(());
        }
        let zero = Value::Int(0);
        let value = value_in(row, self.column, &zero);
        put_key(alloc, &mut self.values, value, key)
    }

    /// Puts a key under a value. If memory runs out, the same keys are under each value.
    pub(crate) fn put_value(
        &mut self,
        alloc: Global,
        value: &Value,
        key: &Key,
    ) -> Result<(), NoMemory>
        ensures ok { OnOk result (Gains (is_pair value.now key.now) self.old self.new) }
        ensures err { OnErr result (Gains no_pair self.old self.new) }
    {
        put_key(alloc, &mut self.values, value, key)
    }

    /// Takes a key out from under a value.
    pub(crate) fn take(&mut self, value: &Value, key: &Key)
        ensures { Shrinks value.now key.now self.old self.new }
    {
        take_key(&mut self.values, value, key);
    }
}

/// Returns the place of the first index of a column.
pub(crate) fn place_of(columns: &[ColumnIndex], table: u8, column: u8) -> Option<usize>
    ensures place { result ≡ position (is_of table column) columns.now }
    ensures within { IfSome result (λ at. at < length columns.now) }
{
    columns.iter().position(|part| part.is_of(table, column))
}
