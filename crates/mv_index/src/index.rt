//! Indexes of columns.

ghost use Rattle.std.specs.Prelude.{◌≡◌, ◌<◌, ◌^◌, ◌+◌, ◌⊎◌, ◌++◌, ◌∷◌, ℕ, [], true, false, length, Some, None, if◌then◌else◌, List, All, IfOk, IfSome, OnOk, OnErr, MatchOption};
ghost use Rattle.std.specs.List.{AllWithin, AllZip};
ghost use Rattle.std.specs.Option.{option_copied, is_some};
ghost use Rattle.mv_values.specs.declared.value.Value.{Value};
ghost use Rattle.mv_values.specs.Testing.{are_tested};
ghost use Rattle.mv_table.specs.Entries.{KeysRise};
ghost use Rattle.mv_values.specs.declared.tested.Tested.{Tested};
ghost use Rattle.mv_index.specs.declared.lens.KeyLens.{KeyLens};
ghost use Rattle.mv_index.specs.Indexing.{is_pair, is_known, Adds, no_pair, MayNoteLen, is_indexed, keys_under, lens_of, Keeps, AddsOnly, Has, Loses, Grows, HasKey, AreEmptyFor, gives_key, IsOnly, keys_for, AreFewest, IsNoWorse, is_no_worse};

use crate::column::{ColumnIndex, place_of};
use crate::keys::Keys;
use crate::lens::{KeyLens, note_len};
use mv_values::list::List;
use mv_values::memory::NoMemory;
use mv_values::pred::Test;
use mv_values::pred_ref::PredRef;
use mv_values::tested::{Tested, is_equality};
use mv_values::value::{Key, Row, Value};
use std::alloc::Global;
use std::collections::BTreeMap;
use std::marker::Model;

/// Indexes of columns: the keys of rows by the value in each column. It knows how many columns the keys of each table have,
/// if the table has had a row.
#[derive(Drop)]
pub struct Index {
    columns: Vec<ColumnIndex>,
    key_lens: BTreeMap<u8, KeyLens>,
    no_keys: Keys,
}

impl Model for Index {
    ghost use Rattle.std.specs.Prelude.{◌≡◌, []};
    ghost use Rattle.mv_index.specs.Indexing.{Contents};

    ghost Value = { Contents };

    ghost view = { λ i. record { columns = i.columns.items; key_lens = i.key_lens.entries } };

    ghost invariant = { λ i. i.no_keys ≡ [] };
}

/// Adds an empty index of a column, unless it has one.
fn add_column(alloc: Global, parts: &mut Vec<ColumnIndex>, tested: Tested) -> Result<(), NoMemory>
    ensures { OnOk result ((columns : List Tested) → AreEmptyFor columns parts.old.items → AreEmptyFor (columns ++ tested ∷ []) parts.new.items) }
{
    if place_of(parts.as_slice(), tested.table, tested.column).is_some() {
        return Ok(());
    }
    parts.push(ColumnIndex::new(alloc, tested))?;
    Ok(())
}

/// Returns an empty index for each of these columns. Repeated columns have one index.
fn empty_columns(alloc: Global, columns: &[Tested]) -> Result<Vec<ColumnIndex>, NoMemory>
    ensures { IfOk result (λ parts. AreEmptyFor columns.now parts.items) }
{
    let mut parts = Vec::new(alloc);
    for tested in columns {
        add_column(alloc, &mut parts, *tested)?;
    }
    Ok(parts)
}

/// Puts the key of a row into the index at this place, if it is of the row's table.
fn put_at(
    alloc: Global,
    columns: &mut Vec<ColumnIndex>,
    at: usize,
    table: u8,
    key: &Key,
    row: &Row,
) -> Result<(), NoMemory>
    requires { at < length columns.old.items }
    ensures grow { AllZip (Grows table key.now row.now) columns.old.items columns.new.items }
    ensures have { OnOk result (AllWithin (HasKey table key.now row.now) columns.old.items 0 at → AllWithin (HasKey table key.now row.now) columns.new.items 0 (at + 1)) }
{
    columns[at].put(alloc, table, key, row.as_slice())
}

/// Puts the key of a row under the row's value in each column of its table.
fn put_in_all(
    alloc: Global,
    columns: &mut Vec<ColumnIndex>,
    table: u8,
    key: &Key,
    row: &Row,
) -> Result<(), NoMemory>
    ensures grow { AllZip (Grows table key.now row.now) columns.old.items columns.new.items }
    ensures have { OnOk result (All (HasKey table key.now row.now) columns.new.items) }
{
    for at in 0..columns.len() {
        put_at(alloc, columns, at, table, key, row)?;
    }
    Ok(())
}

/// Takes a key out from under a value of a column, if the column is indexed.
fn take_in(columns: &mut Vec<ColumnIndex>, table: u8, column: u8, value: &Value, key: &Key)
    ensures { (lens : List (ℕ × KeyLens)) → Loses table column value.now key.now (record { columns = columns.old.items; key_lens = lens }) (record { columns = columns.new.items; key_lens = lens }) }
{
    let Some(at) = place_of(columns.as_slice(), table, column) else {
        return;
    };
    columns[at].take(value, key);
}

/// Puts a key under a value of a column, if the column is indexed. If memory runs out, the entries are as before.
fn put_in(
    alloc: Global,
    columns: &mut Vec<ColumnIndex>,
    table: u8,
    column: u8,
    value: &Value,
    key: &Key,
) -> Result<(), NoMemory>
    ensures ok { OnOk result ((lens : List (ℕ × KeyLens)) → Adds table column (is_pair value.now key.now) (record { columns = columns.old.items; key_lens = lens }) (record { columns = columns.new.items; key_lens = lens })) }
    ensures err { OnErr result ((lens : List (ℕ × KeyLens)) → Adds table column no_pair (record { columns = columns.old.items; key_lens = lens }) (record { columns = columns.new.items; key_lens = lens })) }
{
    let Some(at) = place_of(columns.as_slice(), table, column) else {
        return Ok(());
    };
    columns[at].put_value(alloc, value, key)
}

/// The keys under the value of a test of a column.
#[derive(Clone, Copy)]
struct Candidate<'a> {
    column: u8,
    keys: &'a Keys,
}

impl<'a> Candidate<'a> {
    /// Whether it has fewer keys than another candidate, or as many and a column that isn't greater.
    fn is_no_worse(&self, other: &Candidate<'a>) -> bool
        ensures { result ≡ is_no_worse (length self.now.keys.now) self.now.column (length other.now.keys.now) other.now.column }
    {
        let count = self.keys.len();
        let other_count = other.keys.len();
        count < other_count || (count == other_count && self.column <= other.column)
    }
}

/// Returns the better of two candidates, if there are two.
fn better<'a>(best: Option<Candidate<'a>>, candidate: Candidate<'a>) -> Candidate<'a>
    ensures one { (result ≡ candidate.entry) ⊎ (best.entry ≡ Some result) }
    ensures no_worse { IsNoWorse (length result.keys.now) result.column (length candidate.entry.keys.now) candidate.entry.column }
    ensures no_worse_before { IfSome best.entry (λ b. IsNoWorse (length result.keys.now) result.column (length b.keys.now) b.column) }
{
    let Some(best) = best else {
        return candidate;
    };
    if best.is_no_worse(&candidate) {
        best
    } else {
        candidate
    }
}

/// Returns the keys, which rise.
fn rising(keys: &Keys) -> &Keys
    ensures keys { result.now ≡ keys.now }
    ensures rising { KeysRise result.now }
{
    let _len = keys.len();
    keys
}

impl Index {
    /// Returns an index of these columns, without entries.
    pub fn new(alloc: Global, columns: &List<Tested>) -> Result<Index, NoMemory>
        ensures indexed { IfOk result (λ index. (t c : ℕ) → is_indexed index t c ≡ are_tested columns.now t c) }
        ensures empty { IfOk result (λ index. (t c : ℕ) (v : Value) → keys_under index t c v ≡ []) }
        ensures lens { IfOk result (λ index. (t : ℕ) → lens_of index t ≡ None) }
    {
        let columns = empty_columns(alloc, columns.as_slice())?;
        Ok(Index {
            columns,
            key_lens: BTreeMap::new(alloc),
            no_keys: Keys::new(),
        })
    }

    /// Puts the key of a row under the row's value in each indexed column of the table. A column that the row lacks
    /// counts as 0. Takes time logarithmic in the number of values and of keys for each column. If memory runs out, some
    /// of these entries may be there.
    pub fn add(&mut self, alloc: Global, table: u8, key: &Key, row: &Row) -> Result<(), NoMemory>
        ensures keeps { Keeps self.old self.new }
        ensures only { AddsOnly table key.now row.now self.old self.new }
        ensures has { OnOk result (Has table key.now row.now self.new) }
    {
        note_len(&mut self.key_lens, table, key.len())?;
        put_in_all(alloc, &mut self.columns, table, key, row)
    }

    /// Takes a key out from under a value of a column. Takes time logarithmic in the number of values and of keys, moves
    /// none of them and allocates no memory.
    pub fn forget(&mut self, table: u8, column: u8, value: &Value, key: &Key)
        ensures { Loses table column value.now key.now self.old self.new }
    {
        take_in(&mut self.columns, table, column, value, key);
    }

    /// Puts a key under a value of a column, if the column is indexed. Takes time logarithmic in the number of values and
    /// of keys. If memory runs out, the entries are as before.
    pub fn note(
        &mut self,
        alloc: Global,
        table: u8,
        column: u8,
        value: &Value,
        key: &Key,
    ) -> Result<(), NoMemory>
        ensures ok { OnOk result (Adds table column (is_pair value.now key.now) self.old self.new) }
        ensures err { OnErr result (Adds table column no_pair self.old self.new) }
    {
        put_in(alloc, &mut self.columns, table, column, value, key)
    }

    /// Notes how many columns a key of a table has. It makes no entry.
    pub fn note_key(&mut self, table: u8, key: &Key) -> Result<(), NoMemory>
        ensures notes { MayNoteLen table self.old self.new }
        ensures len { OnOk result (is_known (lens_of self.new table) (length key.now) ≡ true) }
    {
        note_len(&mut self.key_lens, table, key.len())
    }

    /// Whether a column is indexed.
    pub fn indexes(&self, table: u8, column: u8) -> bool
        ensures { result ≡ is_indexed self.now table column }
    {
        place_of(self.columns.as_slice(), table, column).is_some()
    }

    /// Returns the keys under a value of a column, in ascending order. There are none if the column isn't indexed. Takes
    /// time logarithmic in the number of values, and allocates no memory.
    pub fn keys(&self, table: u8, column: u8, value: &Value) -> &Keys
        ensures keys { result.now ≡ keys_under self.now table column value.now }
        ensures rising { KeysRise result.now }
    {
        match self.keys_in(table, column, value) {
            Some(keys) => rising(keys),
            None => rising(&self.no_keys),
        }
    }

    /// Returns the keys under a value of a column, if the column is indexed.
    fn keys_in(&self, table: u8, column: u8, value: &Value) -> Option<&Keys>
        ensures { option_copied result ≡ (if is_indexed self.now table column then Some (keys_under self.now table column value.now) else None) }
    {
        match place_of(self.columns.as_slice(), table, column) {
            None => None,
            Some(at) => match self.columns[at].keys_under(value) {
                Some(keys) => Some(keys),
                None => Some(&self.no_keys),
            },
        }
    }

    /// Returns the keys under the value of a test, if it is an `=` test of an indexed column.
    fn keys_for(&self, table: u8, test: &Test) -> Option<&Keys>
        ensures { option_copied result ≡ keys_for self.now table test.now }
    {
        if is_equality(test.op) {
            self.keys_in(table, test.column, &test.value)
        } else {
            None
        }
    }

    /// Returns the keys for a test of a predicate, if it's one of an indexed column by `=`.
    fn keys_of(&self, pred: &PredRef<'_>, test: &Test) -> Option<&Keys>
        ensures { option_copied result ≡ keys_for self.now pred.now.table test.now }
    {
        self.keys_for(pred.table(), test)
    }

    /// Returns the fewest keys that stand under the value of an `=` test of an indexed column, if there is such a test.
    /// Where several tests have as few, it takes the one of the least column.
    pub(crate) fn fewest(&self, pred: &PredRef<'_>) -> Option<&Keys>
        ensures { MatchOption result (All (λ test. keys_for self.now pred.now.table test ≡ None) pred.now.tests) (λ keys. AreFewest self.now pred.now keys.now) }
    {
        let mut best: Option<Candidate<'_>> = None;
        for test in pred.tests() {
            let Some(keys) = self.keys_of(pred, test) else {
                continue;
            };
            let column = test.column;
            best = Some(better(best, Candidate { column, keys }));
        }
        match best {
            Some(best) => Some(best.keys),
            None => None,
        }
    }

    /// Whether a table has had a row.
    fn has_had_row(&self, table: u8) -> bool
        ensures had { result ≡ is_some (lens_of self.now table) }
        ensures byte { table < 2 ^ 8 }
    {
        self.key_lens.contains_key(&table)
    }

    /// Whether the table of a predicate has had a row.
    pub(crate) fn has_had_row_of(&self, pred: &PredRef<'_>) -> bool
        ensures had { result ≡ is_some (lens_of self.now pred.now.table) }
        ensures byte { pred.now.table < 2 ^ 8 }
    {
        self.has_had_row(pred.table())
    }

    /// Returns the key that the predicate's `=` tests give whole, if they do.
    pub(crate) fn whole_key(
        &self,
        alloc: Global,
        pred: &PredRef<'_>,
    ) -> Result<Option<Key>, NoMemory>
        ensures given { IfOk result (λ key. is_some key ≡ gives_key self.now pred.now) }
        ensures only { IfOk result (λ key. IfSome key (IsOnly self.now pred.now)) }
    {
        match self.key_lens.get(&pred.table()) {
            Some(lens) => lens.whole_key(alloc, pred.tests()),
            None => Ok(None),
        }
    }
}
