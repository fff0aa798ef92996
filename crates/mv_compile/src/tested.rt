//! The columns that statements test with `=`.

ghost use Rattle.std.specs.Prelude.{◌≡◌, ◌<◌, ◌^◌, All, OnOk, option_to_list};
ghost use Rattle.std.specs.Option.{option_map};
ghost use Rattle.mv_catalog.specs.declared.resolved.RStmt.{out-RStmt};
ghost use Rattle.mv_values.specs.Testing.{are_tested};
ghost use Rattle.mv_graph.specs.Tests.{own_where, wheres_in, wheres_of, equalities, equalities_in, with_tested, with_all_tested, AreNarrow};
ghost use Rattle.mv_compile.specs.Held.{wheres_held, IsNarrow, HoldsNarrow};

use mv_catalog::resolved::{RCond, RStmt};
use mv_values::list::List;
use mv_values::memory::NoMemory;
use mv_values::tested::{Tested, is_equality};

/// Whether a column is among those that are tested.
fn are_tested(all: &[Tested], column: Tested) -> bool
    ensures { result ≡ are_tested all.now column.table column.column }
{
    all.iter().any(|tested| tested.table == column.table && tested.column == column.column)
}

/// Adds a column, unless it is there.
fn add_column(all: &mut List<Tested>, column: Tested) -> Result<(), NoMemory>
    ensures { OnOk result (all.new ≡ with_tested all.old column) }
{
    if are_tested(all.as_slice(), column) {
        Ok(())
    } else {
        all.push(column)
    }
}

/// Adds the columns of a table that conditions test with `=`, each once.
fn add_equalities(all: &mut List<Tested>, table: u16, conds: &[RCond]) -> Result<(), NoMemory>
    requires { table < 2 ^ 8 }
    ensures { OnOk result (all.new ≡ with_all_tested all.old (equalities table conds.now)) }
{
    for cond in conds {
        if !is_equality(cond.op) {
            continue;
        }
        let column = cond.column;
        let table = table as u8;
        add_column(all, Tested { table, column })?;
    }
    Ok(())
}

/// Returns the table and the conditions of a statement's WHERE, if it has one.
fn where_of(statement: &RStmt) -> Option<(u16, &[RCond])>
    ensures { option_to_list (option_map (λ w. (w.0, w.1.now)) result) ≡ own_where (out-RStmt statement.now) }
{
    match statement {
        RStmt::Select { table, conds, .. }
        | RStmt::Total { table, conds, .. }
        | RStmt::ForSelect { table, conds, .. }
        | RStmt::Update { table, conds, .. }
        | RStmt::Delete { table, conds } => Some((*table, conds.as_slice())),
        _ => None,
    }
}

/// Adds the columns that the WHERE of a statement tests with `=`, each once.
fn add_own(all: &mut List<Tested>, statement: &RStmt) -> Result<(), NoMemory>
    requires { AreNarrow (own_where (out-RStmt statement.now)) }
    ensures { OnOk result (all.new ≡ with_all_tested all.old (equalities_in (own_where (out-RStmt statement.now)))) }
{
    match where_of(statement) {
        Some((table, conds)) => add_equalities(all, table, conds),
        None => Ok(()),
    }
}

/// Adds the columns that these statements test with `=`, and those of the statements that they hold, each once.
#[cycle(tested)]
pub(crate) fn add_tested(all: &mut List<Tested>, statements: &[RStmt]) -> Result<(), NoMemory>
    requires { All IsNarrow statements.now }
    ensures { OnOk result (all.new ≡ with_all_tested all.old (equalities_in (wheres_of statements.now))) }
{
    for statement in statements {
        add_test(all, statement)?;
    }
    Ok(())
}

/// Adds the columns that a statement tests with `=`, and those of the statements that it holds, each once.
#[cycle(tested)]
fn add_test(all: &mut List<Tested>, statement: &RStmt) -> Result<(), NoMemory>
    requires { IsNarrow statement.now }
    ensures { OnOk result (all.new ≡ with_all_tested all.old (equalities_in (wheres_in statement.now))) }
{
    add_own(all, statement)?;
    add_held(all, statement)
}

/// Adds the columns that the statements test with `=` that a statement holds, each once.
#[cycle(tested)]
fn add_held(all: &mut List<Tested>, statement: &RStmt) -> Result<(), NoMemory>
    requires { HoldsNarrow (out-RStmt statement.now) }
    ensures { OnOk result (all.new ≡ with_all_tested all.old (equalities_in (wheres_held (out-RStmt statement.now)))) }
{
    match statement {
        RStmt::ForSelect { body, .. } => add_tested(all, body.as_slice()),
        RStmt::ForRows { body, .. } => add_tested(all, body.as_slice()),
        RStmt::Branch { yes, no, .. } => {
            add_tested(all, yes.as_slice())?;
            add_tested(all, no.as_slice())
        }
        _ => Ok(()),
    }
}
