//! Executes statements one after another, and those that hold others.

ghost use Rattle.std.specs.Prelude.{◌≡◌, ◌≤◌, ◌++◌, [], drop, length, All, Ok, OnOk};
ghost use Rattle.mv_values.specs.References.{OneKeys};
ghost use Rattle.mv_values.specs.Tables.{rows_at, key_columns, KeysStand};
ghost use Rattle.mv_catalog.specs.Text.{IsTable};
ghost use Rattle.mv_eval.specs.Rows.{tests_of, matching};
ghost use Rattle.mv_eval.specs.Results.{Gives, Leaves, then_do};
ghost use Rattle.mv_eval.specs.Value.{value_of, is_so};
ghost use Rattle.mv_eval.specs.Env.{with_found};
ghost use Rattle.mv_eval.specs.Alone.{alone, does, fixed, is_turn, loop_over, for_rows, for_select};
ghost use Rattle.mv_serial.specs.Changing.{StaysUndoable};

use crate::change::RowChange;
use crate::deleting::run_delete;
use crate::inserting::run_insert;
use crate::run::{run_assign, run_print, run_select};
use crate::totals::run_total;
use crate::updating::run_update;
use mv_catalog::resolved::{Query, RExpr, RStmt, Update};
use mv_eval::env::{copied_turns, set_found, set_held};
use mv_eval::expr::holds;
use mv_eval::find::{found_in, tests_from};
use mv_eval::fixing::fixed_rows;
use mv_eval::state::{Content, Env, State, Stop};
use mv_values::calls::End;
use mv_values::copied::Copied;
use mv_values::list::List;
use mv_values::memory::NoMemory;
use mv_values::schema::TableInfo;
use mv_values::value::Row;
use std::alloc::Global;

/// Whether an IF takes its first branch.
fn takes(alloc: Global, test: &RExpr, env: &Env) -> Result<bool, Stop>
    ensures { Gives result (then_do (value_of test.now env.now []) (λ v. Ok (is_so v))) }
{
    holds(alloc, test, env)
}

/// Sets `:found` for a loop over these rows.
fn find_rows(rows: &[Row], env: &mut Env) -> Result<(), NoMemory>
    ensures { OnOk result (env.new ≡ with_found env.old (is_turn rows.now)) }
{
    set_found(env, !rows.is_empty())
}

/// Executes statements, one after another.
#[cycle(statements)]
pub(crate) fn run_all(
    alloc: Global,
    tables: &[TableInfo],
    statements: &[RStmt],
    state: &mut State,
    undo: &mut List<RowChange>,
) -> Result<(), Stop>
    requires keys { KeysStand tables.now state.old.tables }
    requires each { All IsTable tables.now }
    requires parents { OneKeys tables.now }
    requires few { length tables.now ≤ 64 }
    ensures does { Leaves result state.new (alone tables.now statements.now state.old) }
    ensures keys { OnOk result (KeysStand tables.now state.new.tables) }
    ensures undo { StaysUndoable result undo.old state.old.tables undo.new state.new.tables }
{
    for statement in statements {
        run_one(alloc, tables, statement, state, undo)?;
    }
    Ok(())
}

/// Executes one statement.
#[cycle(statements)]
fn run_one(
    alloc: Global,
    tables: &[TableInfo],
    statement: &RStmt,
    state: &mut State,
    undo: &mut List<RowChange>,
) -> Result<(), Stop>
    requires keys { KeysStand tables.now state.old.tables }
    requires each { All IsTable tables.now }
    requires parents { OneKeys tables.now }
    requires few { length tables.now ≤ 64 }
    ensures does { Leaves result state.new (does tables.now statement.now state.old) }
    ensures keys { OnOk result (KeysStand tables.now state.new.tables) }
    ensures undo { StaysUndoable result undo.old state.old.tables undo.new state.new.tables }
{
    match statement {
        RStmt::Assign { to, right } => run_assign(alloc, *to, right, state),
        RStmt::Select {
            columns,
            to,
            table,
            conds,
            sorts,
            offset,
        } => {
            let query = Query {
                table: *table,
                columns: columns.as_slice(),
                conds: conds.as_slice(),
                sorts: sorts.as_slice(),
            };
            run_select(alloc, tables, &query, to.as_slice(), offset, state)
        }
        RStmt::Branch { test, yes, no } => {
            if takes(alloc, test, &state.env)? {
                run_all(alloc, tables, yes.as_slice(), state, undo)
            } else {
                run_all(alloc, tables, no.as_slice(), state, undo)
            }
        }
        RStmt::ForRows { row, rows, body } => {
            run_rows(alloc, tables, *row, *rows, body.as_slice(), state, undo)
        }
        RStmt::Total {
            agg,
            to,
            table,
            conds,
        } => run_total(alloc, tables, *agg, *to, *table, conds.as_slice(), state),
        RStmt::ForSelect {
            row,
            distinct,
            columns,
            table,
            conds,
            sorts,
            body,
        } => {
            let query = Query {
                table: *table,
                columns: columns.as_slice(),
                conds: conds.as_slice(),
                sorts: sorts.as_slice(),
            };
            run_turns(
                alloc,
                tables,
                *row,
                *distinct,
                &query,
                body.as_slice(),
                state,
                undo,
            )
        }
        RStmt::Update {
            table,
            items,
            conds,
        } => {
            let update = Update {
                table: *table,
                items: items.as_slice(),
                conds: conds.as_slice(),
            };
            run_update(alloc, tables, &update, state, undo)
        }
        RStmt::Print { values } => run_print(alloc, values.as_slice(), state),
        RStmt::Rollback { reason } => Err(Stop::Ended(End::Own(reason.copy(alloc)?))),
        RStmt::Insert { table, values } => {
            run_insert(alloc, tables, *table, values.as_slice(), state, undo)
        }
        RStmt::Delete { table, conds } => {
            run_delete(alloc, tables, *table, conds.as_slice(), state, undo)
        }
    }
}

/// Returns the rows of a FOR over SELECT, fixed before its first turn.
fn turns_of(
    alloc: Global,
    tables: &[TableInfo],
    once: bool,
    query: &Query<'_>,
    state: &State,
) -> Result<List<Row>, Stop>
    requires keys { KeysStand tables.now state.now.tables }
    requires each { All IsTable tables.now }
    ensures { Gives result (then_do (tests_of (key_columns tables.now query.now.table) query.now.conds.now state.now.env) (λ tests. Ok (fixed once query.now.columns.now query.now.sorts.now (matching tests (rows_at state.now.tables query.now.table))))) }
{
    let tests = tests_from(alloc, tables, query.table, query.conds, &state.env)?;
    let found = found_in(alloc, tables, &state.tables, query.table, tests.as_slice())?;
    Ok(fixed_rows(alloc, once, query.columns, query.sorts, found.as_slice())?)
}

/// Executes FOR over SELECT.
#[cycle(statements)]
fn run_turns(
    alloc: Global,
    tables: &[TableInfo],
    row: u16,
    once: bool,
    query: &Query<'_>,
    body: &[RStmt],
    state: &mut State,
    undo: &mut List<RowChange>,
) -> Result<(), Stop>
    requires keys { KeysStand tables.now state.old.tables }
    requires each { All IsTable tables.now }
    requires parents { OneKeys tables.now }
    requires few { length tables.now ≤ 64 }
    ensures does { Leaves result state.new (for_select tables.now row once query.now.columns.now query.now.table query.now.conds.now query.now.sorts.now (alone tables.now body.now) state.old) }
    ensures keys { OnOk result (KeysStand tables.now state.new.tables) }
    ensures undo { StaysUndoable result undo.old state.old.tables undo.new state.new.tables }
{
    let rows = turns_of(alloc, tables, once, query, state)?;
    run_loop(alloc, tables, row, body, rows.as_slice(), state, undo)
}

/// Executes FOR over a ROWS parameter.
#[cycle(statements)]
fn run_rows(
    alloc: Global,
    tables: &[TableInfo],
    row: u16,
    parameter: u16,
    body: &[RStmt],
    state: &mut State,
    undo: &mut List<RowChange>,
) -> Result<(), Stop>
    requires keys { KeysStand tables.now state.old.tables }
    requires each { All IsTable tables.now }
    requires parents { OneKeys tables.now }
    requires few { length tables.now ≤ 64 }
    ensures does { Leaves result state.new (for_rows row parameter (alone tables.now body.now) state.old) }
    ensures keys { OnOk result (KeysStand tables.now state.new.tables) }
    ensures undo { StaysUndoable result undo.old state.old.tables undo.new state.new.tables }
{
    let rows = copied_turns(alloc, &state.env, parameter)?;
    run_loop(alloc, tables, row, body, rows.as_slice(), state, undo)
}

/// Executes FOR over fixed rows.
#[cycle(statements)]
fn run_loop(
    alloc: Global,
    tables: &[TableInfo],
    row: u16,
    body: &[RStmt],
    rows: &[Row],
    state: &mut State,
    undo: &mut List<RowChange>,
) -> Result<(), Stop>
    requires keys { KeysStand tables.now state.old.tables }
    requires each { All IsTable tables.now }
    requires parents { OneKeys tables.now }
    requires few { length tables.now ≤ 64 }
    ensures does { Leaves result state.new (loop_over row (alone tables.now body.now) rows.now state.old) }
    ensures keys { OnOk result (KeysStand tables.now state.new.tables) }
    ensures undo { StaysUndoable result undo.old state.old.tables undo.new state.new.tables }
{
    find_rows(rows, &mut state.env)?;
    for one in rows {
        set_held(
            &mut state.env,
            row as usize,
            Content::Turn(one.copy(alloc)?),
        )?;
        run_all(alloc, tables, body, state, undo)?;
    }
    Ok(())
}
