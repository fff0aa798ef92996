//! The changes that a call makes when it commits.

ghost use Rattle.std.specs.Prelude.{◌≡◌, ◌∷◌, ◌++◌, [], List as Seq, All, pos, IfOk, OnOk};
ghost use Rattle.mv_values.specs.declared.value.Value.TheVariants.{Int};
ghost use Rattle.mv_values.specs.declared.patch.Write.{Write as AWrite};
ghost use Rattle.mv_values.specs.Patching.{applied, row_of};
ghost use Rattle.mv_values.specs.Tables.{rows_at};
ghost use Rattle.mv_record.specs.Runs.{writes_in};
ghost use Rattle.mv_record.specs.Writes.{AreRising};
ghost use Rattle.mv_table.specs.Entries.{KeysRise};
ghost use Rattle.mv_history.specs.Changes.{changes_between, place};
ghost use Rattle.mv_changes.specs.Drafting.{IsDraft, change_of_write, changed_by, differing};

use mv_history::change::{Change, is_same, next_change};
use mv_record::applying::patch_row;
use mv_record::record::Record;
use mv_table::key_map::KeyMap;
use mv_table::table::{Tables, row_at};
use mv_values::copied::Copied;
use mv_values::key::key_after;
use mv_values::list::List;
use mv_values::memory::NoMemory;
use mv_values::patch::Write;
use mv_values::value::{Key, Row};
use std::alloc::Global;

/// Returns a key with its table in front.
fn place_of(alloc: Global, table: u8, key: &Key) -> Result<Key, NoMemory>
    ensures { IfOk result (λ place. place ≡ Int (pos table) ∷ key.now) }
{
    Ok(key_after(alloc, table as i64, key)?)
}

/// Returns a copy of the row under a key of a table, if there is one.
fn copy_row_at(
    alloc: Global,
    tables: &Tables,
    table: u8,
    key: &Key,
) -> Result<Option<Row>, NoMemory>
    ensures { IfOk result (λ row. row ≡ row_of (rows_at tables.now table) key.now) }
{
    match row_at(tables, table, key) {
        None => Ok(None),
        Some(row) => Ok(Some(row.copy(alloc)?)),
    }
}

/// Returns the change of a key by its first write.
fn first_change(alloc: Global, write: &Write, tables: &Tables) -> Result<Change, NoMemory>
    ensures { IfOk result (λ change. change ≡ change_of_write write.now (row_of (rows_at tables.now write.now.table) write.now.key)) }
{
    let before = copy_row_at(alloc, tables, write.table, &write.key)?;
    let after = patch_row(alloc, &write.patch, before.as_ref())?;
    let key = write.key.copy(alloc)?;
    Ok(Change {
        table: write.table,
        key,
        before,
        after,
    })
}

/// Returns the change of the write's key after the write, given its change before it, if any.
fn change_by(
    alloc: Global,
    was: Option<Change>,
    write: &Write,
    tables: &Tables,
) -> Result<Change, NoMemory>
    ensures { IfOk result (λ change. change ≡ changed_by write.now was (row_of (rows_at tables.now write.now.table) write.now.key)) }
{
    match was {
        Some(change) => next_change(alloc, change, write),
        None => first_change(alloc, write, tables),
    }
}

/// Adds a write to the changes, unless it is to a table that doesn't exist.
fn add_write(
    alloc: Global,
    changes: &mut KeyMap<Change>,
    write: &Write,
    tables: &Tables,
) -> Result<(), NoMemory>
    requires { AreRising tables.now }
    ensures { OnOk result ((ws : Seq AWrite) → IsDraft changes.old ws tables.now → IsDraft changes.new (ws ++ write.now ∷ []) tables.now) }
{
    if write.table as usize >= tables.len() {
        return Ok(());
    }
    let place = place_of(alloc, write.table, &write.key)?;
    let was = changes.take(&place);
    let change = change_by(alloc, was, write, tables)?;
    changes.put(place, change)?;
    Ok(())
}

/// Adds writes to the changes.
fn add_writes(
    alloc: Global,
    changes: &mut KeyMap<Change>,
    writes: &[Write],
    tables: &Tables,
) -> Result<(), NoMemory>
    requires { AreRising tables.now }
    ensures { OnOk result ((ws : Seq AWrite) → IsDraft changes.old ws tables.now → IsDraft changes.new (ws ++ writes.now) tables.now) }
{
    for write in writes {
        add_write(alloc, changes, write, tables)?;
    }
    Ok(())
}

/// Returns the changes whose rows differ.
fn differing(alloc: Global, changes: KeyMap<Change>) -> Result<List<Change>, NoMemory>
    ensures listed { IfOk result (λ listed. listed ≡ differing changes) }
    ensures rising { OnOk result (KeysRise changes) }
{
    let mut listed = List::new(alloc);
    for (_place, change) in changes.into_entries() {
        if !is_same(&change.before, &change.after) {
            listed.push(change)?;
        }
    }
    Ok(listed)
}

/// Returns the changes that the writes of a call's records make to the tables. Takes logarithmic time for each write.
pub(crate) fn changes_of(
    alloc: Global,
    records: &[Record],
    tables: &Tables,
) -> Result<List<Change>, NoMemory>
    requires { AreRising tables.now }
    ensures { IfOk result (λ changes. changes ≡ changes_between tables.now (applied (writes_in records.now) tables.now)) }
{
    let mut changes = KeyMap::new(alloc);
    for record in records {
        add_writes(alloc, &mut changes, record.writes.as_slice(), tables)?;
    }
    let listed = differing(alloc, changes)?;
    Ok(listed)
}
