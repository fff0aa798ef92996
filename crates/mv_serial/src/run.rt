//! Executes statements that hold no others.

ghost use Rattle.std.specs.Prelude.{◌≡◌, All};
ghost use Rattle.mv_values.specs.Tables.{KeysStand};
ghost use Rattle.mv_catalog.specs.Text.{IsTable};
ghost use Rattle.mv_eval.specs.Results.{Leaves};
ghost use Rattle.mv_eval.specs.Alone.{assign, select, print};

use mv_catalog::resolved::{Query, RExpr};
use mv_eval::chosen::chosen_in;
use mv_eval::env::{set_columns, set_found, set_value};
use mv_eval::expr::{number_in, offset, value};
use mv_eval::find::tests_from;
use mv_eval::line::line_of_exprs;
use mv_eval::state::{State, Stop};
use mv_values::schema::TableInfo;
use std::alloc::Global;

/// Executes SET.
pub(crate) fn run_assign(
    alloc: Global,
    to: u16,
    right: &RExpr,
    state: &mut State,
) -> Result<(), Stop>
    ensures does { Leaves result state.new (assign to right.now state.old) }
    ensures tables { state.new.tables ≡ state.old.tables }
{
    let v = value(alloc, right, &state.env, &[])?;
    set_value(&mut state.env, to, v)?;
    Ok(())
}

/// Executes SELECT INTO.
pub(crate) fn run_select(
    alloc: Global,
    infos: &[TableInfo],
    query: &Query<'_>,
    to: &[u16],
    skip: &Option<RExpr>,
    state: &mut State,
) -> Result<(), Stop>
    requires keys { KeysStand infos.now state.old.tables }
    requires each { All IsTable infos.now }
    ensures tables { state.new.tables ≡ state.old.tables }
    ensures does { Leaves result state.new (select infos.now query.now.columns.now to.now query.now.table query.now.conds.now query.now.sorts.now skip.now state.old) }
{
    let tests = tests_from(alloc, infos, query.table, query.conds, &state.env)?;
    let at = offset(alloc, skip, &state.env)?;
    let found = chosen_in(
        alloc,
        infos,
        &state.tables,
        query.table,
        tests.as_slice(),
        query.sorts,
        number_in(&at),
    )?;
    match found {
        None => set_found(&mut state.env, false)?,
        Some(item) => {
            set_columns(
                alloc,
                &mut state.env,
                to,
                query.columns,
                item.row.as_slice(),
            )?;
            set_found(&mut state.env, true)?;
        }
    }
    Ok(())
}

/// Executes PRINT.
pub(crate) fn run_print(alloc: Global, exprs: &[RExpr], state: &mut State) -> Result<(), Stop>
    ensures does { Leaves result state.new (print exprs.now state.old) }
    ensures tables { state.new.tables ≡ state.old.tables }
{
    let line = line_of_exprs(alloc, exprs, &state.env)?;
    state.lines.push(line)?;
    Ok(())
}
