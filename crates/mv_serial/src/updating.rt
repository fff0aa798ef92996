//! Executes UPDATE.

ghost use Rattle.std.specs.Prelude.{◌≡◌, All, map, IfOk, OnOk};
ghost use Rattle.mv_values.specs.Keys.{IsRising};
ghost use Rattle.mv_values.specs.References.{OneKeys, ParentsHaveOneKey};
ghost use Rattle.mv_values.specs.Tables.{rows_at, key_columns, KeysStand};
ghost use Rattle.mv_table.specs.Entries.{seen};
ghost use Rattle.mv_catalog.specs.Text.{IsTable};
ghost use Rattle.mv_eval.specs.Results.{Gives, Leaves};
ghost use Rattle.mv_eval.specs.Rows.{matching, IsPlaced};
ghost use Rattle.mv_eval.specs.Changes.{OthersStay, set_row_by};
ghost use Rattle.mv_eval.specs.References.{fit_in};
ghost use Rattle.mv_eval.specs.Alone as alone;
ghost use Rattle.mv_serial.specs.Changing.{renewals, StaysUndoable};

use crate::change::{RowChange, make_all};
use crate::parents::fit_in;
use mv_catalog::resolved::Update;
use mv_eval::env::set_found;
use mv_eval::expr::value;
use mv_eval::find::{found_in, key_in, tests_from};
use mv_eval::made::set_column;
use mv_eval::state::{State, Stop};
use mv_table::table::Entry;
use mv_values::copied::Copied;
use mv_values::list::List;
use mv_values::pred::Test;
use mv_values::schema::TableInfo;
use mv_values::value::Row;
use std::alloc::Global;

/// Returns the row after the items of SET. All right sides see the row as it was, and key columns don't change. Ends
/// the call with the first fault of a right side, or with `TooLong` or `MissingParent` if a value doesn't fit its column.
fn renewed(
    alloc: Global,
    tables: &[TableInfo],
    keys: &[u8],
    state: &State,
    update: &Update<'_>,
    row: &Row,
) -> Result<Row, Stop>
    requires { ParentsHaveOneKey tables.now state.now.tables }
    ensures { Gives result (set_row_by (fit_in tables.now update.now.table state.now.tables) keys.now state.now.env row.now update.now.items.now row.now) }
{
    let mut new = row.copy(alloc)?;
    for item in update.items {
        let v = value(alloc, &item.right, &state.env, row.as_slice())?;
        let v = fit_in(alloc, tables, &state.tables, update.table, item.column, v)?;
        set_column(keys, &mut new, item.column, v);
    }
    Ok(new)
}

/// Returns the changes that make each of the rows anew, up to the first fault.
fn renewals_of(
    alloc: Global,
    tables: &[TableInfo],
    keys: &[u8],
    state: &State,
    update: &Update<'_>,
    rows: &[Entry<'_>],
) -> Result<List<RowChange>, Stop>
    requires { ParentsHaveOneKey tables.now state.now.tables }
    ensures { Gives result (renewals update.now.table (λ row. set_row_by (fit_in tables.now update.now.table state.now.tables) keys.now state.now.env row update.now.items.now row) (map seen rows.now)) }
{
    let mut changes = List::new(alloc);
    for entry in rows {
        let row = renewed(alloc, tables, keys, state, update, entry.row)?;
        changes.push(RowChange {
            table: update.table,
            key: entry.key.copy(alloc)?,
            row: Some(row),
        })?;
    }
    Ok(changes)
}

/// Returns the changes that make each matching row anew, up to the first fault.
fn renewals_in(
    alloc: Global,
    tables: &[TableInfo],
    update: &Update<'_>,
    tests: &[Test],
    state: &State,
) -> Result<List<RowChange>, Stop>
    requires keys { KeysStand tables.now state.now.tables }
    requires places { All (IsPlaced (key_columns tables.now update.now.table)) tests.now }
    requires parents { ParentsHaveOneKey tables.now state.now.tables }
    ensures changes { Gives result (renewals update.now.table (λ row. set_row_by (fit_in tables.now update.now.table state.now.tables) (key_columns tables.now update.now.table) state.now.env row update.now.items.now row) (matching tests.now (rows_at state.now.tables update.now.table))) }
    ensures rising { IfOk result (λ changes. IsRising (rows_at state.now.tables update.now.table)) }
{
    let found = found_in(alloc, tables, &state.tables, update.table, tests)?;
    renewals_of(
        alloc,
        tables,
        key_in(tables, update.table),
        state,
        update,
        found.as_slice(),
    )
}

/// Executes UPDATE. Makes all new rows before it changes one.
pub(crate) fn run_update(
    alloc: Global,
    tables: &[TableInfo],
    update: &Update<'_>,
    state: &mut State,
    undo: &mut List<RowChange>,
) -> Result<(), Stop>
    requires keys { KeysStand tables.now state.old.tables }
    requires each { All IsTable tables.now }
    requires parents { OneKeys tables.now }
    ensures does { Leaves result state.new (alone.update tables.now update.now.table update.now.items.now update.now.conds.now state.old) }
    ensures keys { OnOk result (KeysStand tables.now state.new.tables) }
    ensures others { OnOk result (OthersStay update.now.table state.old.tables state.new.tables) }
    ensures undo { StaysUndoable result undo.old state.old.tables undo.new state.new.tables }
{
    let tests = tests_from(alloc, tables, update.table, update.conds, &state.env)?;
    let changes = renewals_in(alloc, tables, update, tests.as_slice(), state)?;
    let found = changes.len() > 0;
    make_all(alloc, &mut state.tables, undo, changes)?;
    set_found(&mut state.env, found)?;
    Ok(())
}
