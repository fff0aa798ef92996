//! The predicates that statements ask their tables.

ghost use Rattle.std.specs.Prelude.{◌≡◌, ◌<◌, ◌≤◌, ◌++◌, IfOk, OnOk, All, length, []};
ghost use Rattle.std.specs.List.{flat_map};
ghost use Rattle.mv_eval.specs.Results.{Gives};
ghost use Rattle.mv_recorded.specs.Asking.{columns_in, column_in, with_sorts, KnowsKey};
ghost use Rattle.mv_catalog.specs.Text.{IsTable};
ghost use Rattle.mv_recorded.specs.Effects.{asks};
ghost use Rattle.mv_recorded.specs.Naming.{Tests, AreColumns};

use crate::numbers::{narrow, narrow_all};
use mv_catalog::resolved::{Query, RAgg, RCond, RExpr, RExprKind, RSetItem, RSort, Update};
use mv_eval::find::tests_from;
use mv_eval::state::{Env, Stop};
use mv_recorded::reads::once_each;
use mv_values::list::List;
use mv_values::memory::NoMemory;
use mv_values::pred::Pred;
use mv_values::schema::TableInfo;
use std::alloc::Global;

/// Returns the predicate for the rows of a table that pass WHERE, with these columns selected. Fails with the first
/// right side of WHERE that is stopped.
pub(crate) fn pred_from(
    alloc: Global,
    tables: &[TableInfo],
    table: u16,
    conds: &[RCond],
    columns: &[u16],
    env: &Env,
) -> Result<Pred, Stop>
    requires few { length tables.now ≤ 64 }
    requires each { All IsTable tables.now }
    requires tests { Tests tables.now table conds.now }
    requires columns { AreColumns tables.now table columns.now }
    ensures asks { Gives result (asks tables.now table conds.now columns.now env.now) }
    ensures knows { IfOk result (KnowsKey tables.now) }
{
    let tests = tests_from(alloc, tables, table, conds, env)?;
    let once = once_each(alloc, columns)?;
    let columns = narrow_all(alloc, once.as_slice())?;
    Ok(Pred {
        table: narrow(table),
        tests,
        columns,
    })
}

/// Returns these columns, then those of ORDER BY.
fn sorted_columns(alloc: Global, columns: &[u16], sorts: &[RSort]) -> Result<List<u16>, NoMemory>
    ensures { IfOk result (λ all. all ≡ with_sorts columns.now sorts.now) }
{
    let mut all = List::new(alloc);
    all.append(columns)?;
    for sort in sorts {
        all.push(sort.column)?;
    }
    Ok(all)
}

/// Returns the predicate of a query, with its columns and those of ORDER BY selected. Fails with the first right side of
/// WHERE that is stopped.
pub(crate) fn select_pred(
    alloc: Global,
    tables: &[TableInfo],
    query: &Query<'_>,
    env: &Env,
) -> Result<Pred, Stop>
    requires few { length tables.now ≤ 64 }
    requires each { All IsTable tables.now }
    requires tests { Tests tables.now query.now.table query.now.conds.now }
    requires columns { AreColumns tables.now query.now.table (with_sorts query.now.columns.now query.now.sorts.now) }
    ensures asks { Gives result (asks tables.now query.now.table query.now.conds.now (with_sorts query.now.columns.now query.now.sorts.now) env.now) }
    ensures knows { IfOk result (KnowsKey tables.now) }
{
    if query.sorts.is_empty() {
        return pred_from(alloc, tables, query.table, query.conds, query.columns, env);
    }
    let asked = sorted_columns(alloc, query.columns, query.sorts)?;
    pred_from(
        alloc,
        tables,
        query.table,
        query.conds,
        asked.as_slice(),
        env,
    )
}

/// Returns the column of an aggregate, if it has one.
fn aggregate_columns(alloc: Global, agg: RAgg) -> Result<List<u16>, NoMemory>
    ensures { IfOk result (λ all. all ≡ column_in agg) }
{
    match agg {
        RAgg::CountAll => Ok(List::new(alloc)),
        RAgg::CountDistinct(column) | RAgg::Sum(column) | RAgg::Min(column) | RAgg::Max(column) => {
            List::of(alloc, column)
        }
    }
}

/// Returns the predicate of an aggregate. Fails with the first right side of WHERE that is stopped.
pub(crate) fn aggregate_pred(
    alloc: Global,
    tables: &[TableInfo],
    agg: RAgg,
    table: u16,
    conds: &[RCond],
    env: &Env,
) -> Result<Pred, Stop>
    requires few { length tables.now ≤ 64 }
    requires each { All IsTable tables.now }
    requires tests { Tests tables.now table conds.now }
    requires columns { AreColumns tables.now table (column_in agg) }
    ensures asks { Gives result (asks tables.now table conds.now (column_in agg) env.now) }
    ensures knows { IfOk result (KnowsKey tables.now) }
{
    let asked = aggregate_columns(alloc, agg)?;
    pred_from(alloc, tables, table, conds, asked.as_slice(), env)
}

/// Adds the columns of the table that an expression names.
fn add_columns(columns: &mut List<u16>, expr: &RExpr) -> Result<(), NoMemory>
    ensures { OnOk result (columns.new ≡ columns.old ++ columns_in expr.now) }
{
    match &expr.kind {
        RExprKind::Const(_) | RExprKind::Var(_) | RExprKind::Field(_, _) => Ok(()),
        RExprKind::Col(column) => columns.push(*column),
        RExprKind::One(_, a) => add_columns(columns, a.get()),
        RExprKind::Two(_, a, b) => {
            add_columns(columns, a.get())?;
            add_columns(columns, b.get())
        }
    }
}

/// Returns the columns in the right sides of SET.
fn right_columns(alloc: Global, items: &[RSetItem]) -> Result<List<u16>, NoMemory>
    ensures { IfOk result (λ all. all ≡ flat_map (λ i. columns_in i.right) items.now) }
{
    let mut all = List::new(alloc);
    for item in items {
        add_columns(&mut all, &item.right)?;
    }
    Ok(all)
}

/// Returns the predicate of an UPDATE, with the columns in the right sides of SET selected. Fails with the first right
/// side of WHERE that is stopped.
pub(crate) fn update_pred(
    alloc: Global,
    tables: &[TableInfo],
    update: &Update<'_>,
    env: &Env,
) -> Result<Pred, Stop>
    requires few { length tables.now ≤ 64 }
    requires each { All IsTable tables.now }
    requires tests { Tests tables.now update.now.table update.now.conds.now }
    requires columns { AreColumns tables.now update.now.table (flat_map (λ i. columns_in i.right) update.now.items.now) }
    ensures asks { Gives result (asks tables.now update.now.table update.now.conds.now (flat_map (λ i. columns_in i.right) update.now.items.now) env.now) }
    ensures knows { IfOk result (KnowsKey tables.now) }
{
    let asked = right_columns(alloc, update.items)?;
    pred_from(
        alloc,
        tables,
        update.table,
        update.conds,
        asked.as_slice(),
        env,
    )
}
