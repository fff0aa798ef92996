//! Asks what statements ask, in the log of their call.

ghost use Rattle.std.specs.Prelude.{◌≡◌, ◌<◌, ◌≤◌, OnOk, OnErr, All, length, map, []};
ghost use Rattle.std.specs.List.{flat_map};
ghost use Rattle.mv_values.specs.Tables.{key_columns};
ghost use Rattle.mv_eval.specs.Results.{Gives};
ghost use Rattle.mv_eval.specs.Rows.{tests_of, IsPlaced};
ghost use Rattle.mv_catalog.specs.Text.{IsTable};
ghost use Rattle.mv_catalog.specs.declared.resolved.RSort.{RSort};
ghost use Rattle.mv_recorded.specs.Asking.{columns_in, column_in, with_sorts, KnowsKey};
ghost use Rattle.mv_recorded.specs.Effects.{asks};
ghost use Rattle.mv_effect.specs.Asking.{asked, AsksOne, all_once, with_columns};
ghost use Rattle.mv_effect.specs.Logging.{IsBlank, without_effect};
ghost use Rattle.mv_recorded.specs.Naming.{Tests, AreColumns};
ghost use Rattle.mv_effect.specs.Stops.{leaving};

use crate::asking::ask;
use crate::numbers::narrow;
use mv_catalog::resolved::{Query, RAgg, RCond, RExpr, RExprKind, RSetItem, RSort, Update};
use mv_eval::expr::value;
use mv_eval::find::{key_in, test_on};
use mv_eval::state::{Env, Stop};
use mv_log::log::Log;
use mv_values::memory::NoMemory;
use mv_values::schema::TableInfo;
use std::alloc::Global;

/// Adds the tests of WHERE over a table with these key columns to the next predicate, which has none yet. Fails with the
/// first right side that is stopped.
fn push_tests_by(
    alloc: Global,
    keys: &[u8],
    conds: &[RCond],
    env: &Env,
    log: &mut Log,
) -> Result<(), Stop>
    requires few { length keys.now ≤ 256 }
    requires none { log.old.tests ≡ [] }
    ensures tests { Gives (leaving result log.new.tests) (tests_of keys.now conds.now env.now) }
    ensures rest { log.new ≡ (let was = log.old in record was { tests = log.new.tests }) }
{
    for cond in conds {
        let value = value(alloc, &cond.right, env, &[])?;
        log.push_test(test_on(keys, cond.column, cond.op, value))?;
    }
    Ok(())
}

/// Adds the tests of WHERE to the next predicate, which has none yet. Fails with the first right side that is stopped.
fn push_tests(
    alloc: Global,
    tables: &[TableInfo],
    table: u16,
    conds: &[RCond],
    env: &Env,
    log: &mut Log,
) -> Result<(), Stop>
    requires each { All IsTable tables.now }
    requires none { log.old.tests ≡ [] }
    ensures tests { Gives (leaving result log.new.tests) (tests_of (key_columns tables.now table) conds.now env.now) }
    ensures places { OnOk result (All (IsPlaced (key_columns tables.now table)) log.new.tests) }
    ensures rest { log.new ≡ (let was = log.old in record was { tests = log.new.tests }) }
{
    push_tests_by(alloc, key_in(tables, table), conds, env, log)
}

/// Adds columns to those that the next predicate selects, each unless it has been added.
fn push_columns(log: &mut Log, columns: &[u16]) -> Result<(), NoMemory>
    requires { All (λ c. c < 256) columns.now }
    ensures ok { OnOk result (log.new ≡ with_columns log.old (all_once log.old.columns columns.now)) }
    ensures err { OnErr result (without_effect log.new ≡ without_effect log.old) }
{
    for column in columns {
        log.push_column_once(narrow(*column))?;
    }
    Ok(())
}

/// Adds the columns of ORDER BY to those that the next predicate selects, each unless it has been added.
fn push_sorts(log: &mut Log, sorts: &[RSort]) -> Result<(), NoMemory>
    requires { All (λ (s : RSort). s.column < 256) sorts.now }
    ensures ok { OnOk result (log.new ≡ with_columns log.old (all_once log.old.columns (map (λ s. s.column) sorts.now))) }
    ensures err { OnErr result (without_effect log.new ≡ without_effect log.old) }
{
    for sort in sorts {
        log.push_column_once(narrow(sort.column))?;
    }
    Ok(())
}

/// Adds the columns of a query, and then those of ORDER BY, to those that the next predicate selects, each unless it has
/// been added.
fn push_sorted(log: &mut Log, columns: &[u16], sorts: &[RSort]) -> Result<(), NoMemory>
    requires { All (λ c. c < 256) (with_sorts columns.now sorts.now) }
    ensures ok { OnOk result (log.new ≡ with_columns log.old (all_once log.old.columns (with_sorts columns.now sorts.now))) }
    ensures err { OnErr result (without_effect log.new ≡ without_effect log.old) }
{
    push_columns(log, columns)?;
    push_sorts(log, sorts)
}

/// Asks what a query asks, with its columns and those of ORDER BY selected. Fails with the first right side of WHERE that
/// is stopped.
pub(crate) fn ask_select(
    alloc: Global,
    tables: &[TableInfo],
    query: &Query<'_>,
    env: &Env,
    log: &mut Log,
) -> Result<(), Stop>
    requires few { length tables.now ≤ 64 }
    requires each { All IsTable tables.now }
    requires tests { Tests tables.now query.now.table query.now.conds.now }
    requires columns { AreColumns tables.now query.now.table (with_sorts query.now.columns.now query.now.sorts.now) }
    requires blank { IsBlank log.old }
    ensures asks { Gives (leaving result (asked log.new)) (asks tables.now query.now.table query.now.conds.now (with_sorts query.now.columns.now query.now.sorts.now) env.now) }
    ensures one { OnOk result (AsksOne log.new) }
    ensures rest { OnOk result (log.new ≡ (let was = log.old in record was { effect = log.new.effect })) }
    ensures err { OnErr result (without_effect log.new ≡ without_effect log.old) }
    ensures knows { OnOk result (KnowsKey tables.now (asked log.new)) }
{
    push_tests(alloc, tables, query.table, query.conds, env, log)?;
    push_sorted(log, query.columns, query.sorts)?;
    ask(log, query.table)?;
    Ok(())
}

/// Adds the column of an aggregate, if it has one, to those that the next predicate selects, unless it has been added.
fn push_aggregate(log: &mut Log, agg: RAgg) -> Result<(), NoMemory>
    requires { All (λ c. c < 256) (column_in agg) }
    ensures ok { OnOk result (log.new ≡ with_columns log.old (all_once log.old.columns (column_in agg))) }
    ensures err { OnErr result (without_effect log.new ≡ without_effect log.old) }
{
    match agg {
        RAgg::CountAll => Ok(()),
        RAgg::CountDistinct(column) | RAgg::Sum(column) | RAgg::Min(column) | RAgg::Max(column) => {
            push_columns(log, &[column])
        }
    }
}

/// Asks what an aggregate asks. Fails with the first right side of WHERE that is stopped.
pub(crate) fn ask_total(
    alloc: Global,
    tables: &[TableInfo],
    agg: RAgg,
    table: u16,
    conds: &[RCond],
    env: &Env,
    log: &mut Log,
) -> Result<(), Stop>
    requires few { length tables.now ≤ 64 }
    requires each { All IsTable tables.now }
    requires tests { Tests tables.now table conds.now }
    requires columns { AreColumns tables.now table (column_in agg) }
    requires blank { IsBlank log.old }
    ensures asks { Gives (leaving result (asked log.new)) (asks tables.now table conds.now (column_in agg) env.now) }
    ensures one { OnOk result (AsksOne log.new) }
    ensures rest { OnOk result (log.new ≡ (let was = log.old in record was { effect = log.new.effect })) }
    ensures err { OnErr result (without_effect log.new ≡ without_effect log.old) }
    ensures knows { OnOk result (KnowsKey tables.now (asked log.new)) }
{
    push_tests(alloc, tables, table, conds, env, log)?;
    push_aggregate(log, agg)?;
    ask(log, table)?;
    Ok(())
}

/// Adds the columns of the table that an expression names to those that the next predicate selects, each unless it has
/// been added.
fn push_named(log: &mut Log, expr: &RExpr) -> Result<(), NoMemory>
    requires { All (λ c. c < 256) (columns_in expr.now) }
    ensures ok { OnOk result (log.new ≡ with_columns log.old (all_once log.old.columns (columns_in expr.now))) }
    ensures err { OnErr result (without_effect log.new ≡ without_effect log.old) }
{
    match &expr.kind {
        RExprKind::Const(_) | RExprKind::Var(_) | RExprKind::Field(_, _) => Ok(()),
        RExprKind::Col(column) => push_columns(log, &[*column]),
        RExprKind::One(_, a) => push_named(log, a.get()),
        RExprKind::Two(_, a, b) => {
            push_named(log, a.get())?;
            push_named(log, b.get())
        }
    }
}

/// Adds the columns in the right sides of SET to those that the next predicate selects, each unless it has been added.
fn push_rights(log: &mut Log, items: &[RSetItem]) -> Result<(), NoMemory>
    requires { All (λ c. c < 256) (flat_map (λ i. columns_in i.right) items.now) }
    ensures ok { OnOk result (log.new ≡ with_columns log.old (all_once log.old.columns (flat_map (λ i. columns_in i.right) items.now))) }
    ensures err { OnErr result (without_effect log.new ≡ without_effect log.old) }
{
    for item in items {
        push_named(log, &item.right)?;
    }
    Ok(())
}

/// Asks what an UPDATE asks, with the columns in the right sides of SET selected. Fails with the first right side of
/// WHERE that is stopped.
pub(crate) fn ask_update(
    alloc: Global,
    tables: &[TableInfo],
    update: &Update<'_>,
    env: &Env,
    log: &mut Log,
) -> Result<(), Stop>
    requires few { length tables.now ≤ 64 }
    requires each { All IsTable tables.now }
    requires tests { Tests tables.now update.now.table update.now.conds.now }
    requires columns { AreColumns tables.now update.now.table (flat_map (λ i. columns_in i.right) update.now.items.now) }
    requires blank { IsBlank log.old }
    ensures asks { Gives (leaving result (asked log.new)) (asks tables.now update.now.table update.now.conds.now (flat_map (λ i. columns_in i.right) update.now.items.now) env.now) }
    ensures one { OnOk result (AsksOne log.new) }
    ensures rest { OnOk result (log.new ≡ (let was = log.old in record was { effect = log.new.effect })) }
    ensures err { OnErr result (without_effect log.new ≡ without_effect log.old) }
    ensures knows { OnOk result (KnowsKey tables.now (asked log.new)) }
{
    push_tests(alloc, tables, update.table, update.conds, env, log)?;
    push_rights(log, update.items)?;
    ask(log, update.table)?;
    Ok(())
}

/// Asks for the rows that pass WHERE, and selects no columns. Fails with the first right side of WHERE that is stopped.
pub(crate) fn ask_where(
    alloc: Global,
    tables: &[TableInfo],
    table: u16,
    conds: &[RCond],
    env: &Env,
    log: &mut Log,
) -> Result<(), Stop>
    requires few { length tables.now ≤ 64 }
    requires each { All IsTable tables.now }
    requires tests { Tests tables.now table conds.now }
    requires blank { IsBlank log.old }
    ensures asks { Gives (leaving result (asked log.new)) (asks tables.now table conds.now [] env.now) }
    ensures one { OnOk result (AsksOne log.new) }
    ensures rest { OnOk result (log.new ≡ (let was = log.old in record was { effect = log.new.effect })) }
    ensures err { OnErr result (without_effect log.new ≡ without_effect log.old) }
    ensures knows { OnOk result (KnowsKey tables.now (asked log.new)) }
{
    push_tests(alloc, tables, table, conds, env, log)?;
    ask(log, table)?;
    Ok(())
}
