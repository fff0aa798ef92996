//! Executes DELETE.

ghost use Rattle.std.specs.Prelude.{◌≡◌, ◌≤◌, All, length, map, IfOk, OnOk};
ghost use Rattle.mv_values.specs.Keys.{IsRising};
ghost use Rattle.mv_values.specs.Tables.{rows_at, key_columns, KeysStand};
ghost use Rattle.mv_table.specs.Entries.{seen};
ghost use Rattle.mv_catalog.specs.Text.{IsTable};
ghost use Rattle.mv_eval.specs.Results.{Leaves};
ghost use Rattle.mv_eval.specs.Rows.{matching, IsPlaced};
ghost use Rattle.mv_eval.specs.Changes.{OthersStay};
ghost use Rattle.mv_eval.specs.Alone.{delete};
ghost use Rattle.mv_serial.specs.Changing.{removals, StaysUndoable};

use crate::change::{RowChange, make_all};
use crate::children::{Removed, have_children};
use mv_catalog::resolved::RCond;
use mv_eval::env::set_found;
use mv_eval::find::{found_in, tests_from};
use mv_eval::state::{State, Stop};
use mv_table::table::{Entry, Tables};
use mv_values::calls::End;
use mv_values::copied::Copied;
use mv_values::list::List;
use mv_values::memory::NoMemory;
use mv_values::pred::Test;
use mv_values::schema::TableInfo;
use std::alloc::Global;

/// Returns the changes that remove each of the rows.
fn removals_of(alloc: Global, table: u16, rows: &[Entry<'_>]) -> Result<List<RowChange>, NoMemory>
    ensures { IfOk result (λ changes. changes ≡ removals table (map seen rows.now)) }
{
    let mut changes = List::new(alloc);
    for entry in rows {
        changes.push(RowChange {
            table,
            key: entry.key.copy(alloc)?,
            row: None,
        })?;
    }
    Ok(changes)
}

/// Returns the changes that remove each matching row.
fn removals_in(
    alloc: Global,
    infos: &[TableInfo],
    tables: &Tables,
    table: u16,
    tests: &[Test],
) -> Result<List<RowChange>, NoMemory>
    requires keys { KeysStand infos.now tables.now }
    requires places { All (IsPlaced (key_columns infos.now table)) tests.now }
    ensures changes { IfOk result (λ changes. changes ≡ removals table (matching tests.now (rows_at tables.now table))) }
    ensures rising { IfOk result (λ changes. IsRising (rows_at tables.now table)) }
{
    let found = found_in(alloc, infos, tables, table, tests)?;
    removals_of(alloc, table, found.as_slice())
}

/// Executes DELETE.
pub(crate) fn run_delete(
    alloc: Global,
    infos: &[TableInfo],
    table: u16,
    conds: &[RCond],
    state: &mut State,
    undo: &mut List<RowChange>,
) -> Result<(), Stop>
    requires keys { KeysStand infos.now state.old.tables }
    requires each { All IsTable infos.now }
    requires few { length infos.now ≤ 64 }
    ensures does { Leaves result state.new (delete infos.now table conds.now state.old) }
    ensures keys { OnOk result (KeysStand infos.now state.new.tables) }
    ensures others { OnOk result (OthersStay table state.old.tables state.new.tables) }
    ensures undo { StaysUndoable result undo.old state.old.tables undo.new state.new.tables }
{
    let tests = tests_from(alloc, infos, table, conds, &state.env)?;
    let removed = Removed {
        table,
        tests: tests.as_slice(),
    };
    let are_parents = have_children(alloc, infos, &state.tables, &removed)?;
    if are_parents {
        return Err(Stop::Ended(End::HasChildren));
    }
    let changes = removals_in(alloc, infos, &state.tables, table, tests.as_slice())?;
    let found = changes.len() > 0;
    make_all(alloc, &mut state.tables, undo, changes)?;
    set_found(&mut state.env, found)?;
    Ok(())
}
