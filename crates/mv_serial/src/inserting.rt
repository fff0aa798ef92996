//! Executes INSERT.

ghost use Rattle.std.specs.Prelude.{Ok, OnOk, slice_set};
ghost use Rattle.mv_values.specs.References.{OneKeys};
ghost use Rattle.mv_values.specs.Tables.{rows_at, KeysStand};
ghost use Rattle.mv_eval.specs.Results.{Leaves, then_do};
ghost use Rattle.mv_eval.specs.Changes.{put_row, OthersStay};
ghost use Rattle.mv_eval.specs.Alone.{insert};
ghost use Rattle.mv_serial.specs.Changing.{StaysUndoable};

use crate::change::{RowChange, add};
use crate::parents::has_parents;
use mv_catalog::resolved::RExpr;
use mv_eval::env::set_found;
use mv_eval::find::{columns_in, key_in};
use mv_eval::made::{made_row, under_key};
use mv_eval::state::{State, Stop};
use mv_table::table::Tables;
use mv_values::calls::End;
use mv_values::list::List;
use mv_values::rows::Keyed;
use mv_values::schema::TableInfo;
use std::alloc::Global;

/// Puts a row under its key. Ends the call with `Duplicate` if there was a row; undoing the call brings that row back.
fn put_new(
    alloc: Global,
    tables: &mut Tables,
    undo: &mut List<RowChange>,
    table: u16,
    item: Keyed,
) -> Result<(), Stop>
    ensures rows { Leaves result tables.new (then_do (put_row item (rows_at tables.old table)) (λ rows. Ok (slice_set tables.old table rows))) }
    ensures undo { StaysUndoable result undo.old tables.old undo.new tables.new }
{
    let back = add(alloc, tables, table, item)?;
    let is_new = back.row.is_none();
    undo.push(back)?;
    if !is_new {
        return Err(Stop::Ended(End::Duplicate));
    }
    Ok(())
}

/// Executes INSERT. Where a parent is missing the row is put all the same, and undoing the call takes it out again.
pub(crate) fn run_insert(
    alloc: Global,
    tables: &[TableInfo],
    table: u16,
    values: &[RExpr],
    state: &mut State,
    undo: &mut List<RowChange>,
) -> Result<(), Stop>
    requires keys { KeysStand tables.now state.old.tables }
    requires parents { OneKeys tables.now }
    ensures does { Leaves result state.new (insert tables.now table values.now state.old) }
    ensures keys { OnOk result (KeysStand tables.now state.new.tables) }
    ensures others { OnOk result (OthersStay table state.old.tables state.new.tables) }
    ensures undo { StaysUndoable result undo.old state.old.tables undo.new state.new.tables }
{
    let row = made_row(alloc, columns_in(tables, table), values, &state.env)?;
    let item = under_key(alloc, key_in(tables, table), row)?;
    let is_kept = has_parents(alloc, tables, &state.tables, table, &item)?;
    put_new(alloc, &mut state.tables, undo, table, item)?;
    if !is_kept {
        return Err(Stop::Ended(End::MissingParent));
    }
    set_found(&mut state.env, true)?;
    Ok(())
}
