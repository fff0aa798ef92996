//! What DELETE checks: that no row stays that holds the key of one that it deletes.

ghost use Rattle.std.specs.Prelude.{◌≡◌, ◌<◌, ◌≤◌, ◌==◌, ◌++◌, All, IfOk, OnOk, length, map};
ghost use Rattle.std.specs.List.{filter, flat_map};
ghost use Rattle.mv_values.specs.References.{reference, references_from, references_to};
ghost use Rattle.mv_catalog.specs.Text.{IsTable};
ghost use Rattle.mv_recorded.specs.Asking.{child_pred};
ghost use Rattle.mv_checks.specs.Checking.{meant, child_checks, reference_to};

use crate::check::Check;
use mv_eval::find::{key_in, tests_of_key};
use mv_values::calls::End;
use mv_values::list::List;
use mv_values::memory::NoMemory;
use mv_values::pred::Pred;
use mv_values::schema::{Column, TableInfo};
use mv_values::value::Key;
use std::alloc::Global;

/// A column with REFERENCES to the table of which it is said.
#[derive(Clone, Copy)]
pub struct Child {
    pub table: u8,
    pub column: u8,
}

/// Adds a column of a table, if it refers to this one.
#[tactic(auto, using(crate::proofs::Referring::child_none, crate::proofs::Referring::child_here, crate::proofs::Referring::child_elsewhere))]
fn push_column(
    parent: u16,
    table: u8,
    at: u8,
    column: &Column,
    all: &mut List<Child>,
) -> Result<(), NoMemory>
    ensures { OnOk result (map (reference_to parent) all.new ≡ map (reference_to parent) all.old ++ filter (λ r. r.parent == parent) (reference table at column.now.refers)) }
{
    let Some(refers) = column.refers else {
        return Ok(());
    };
    if refers as u16 == parent {
        all.push(Child { table, column: at })
    } else {
        Ok(())
    }
}

/// The same for these columns of the table, which are its first ones.
fn push_columns(
    parent: u16,
    table: u8,
    columns: &[Column],
    all: &mut List<Child>,
) -> Result<(), NoMemory>
    requires { length columns.now ≤ 256 }
    ensures { OnOk result (map (reference_to parent) all.new ≡ map (reference_to parent) all.old ++ filter (λ r. r.parent == parent) (references_from table 0 columns.now)) }
{
    for (at, column) in columns.iter().enumerate() {
        push_column(parent, table, at as u8, column, all)?;
    }
    Ok(())
}

/// Returns the columns with REFERENCES to a table, by table and column in declared order. Allocates nothing if there are
/// none.
pub fn children_of(
    alloc: Global,
    tables: &[TableInfo],
    parent: u16,
) -> Result<List<Child>, NoMemory>
    requires few { length tables.now ≤ 64 }
    requires each { All IsTable tables.now }
    ensures { IfOk result (λ all. map (reference_to parent) all ≡ references_to tables.now parent) }
{
    let mut all = List::new(alloc);
    for (at, info) in tables.iter().enumerate() {
        let columns = info.columns.as_slice();
        push_columns(parent, at as u8, columns, &mut all)?;
    }
    Ok(all)
}

/// Returns the predicate for the rows that hold the key in a column. It selects no columns.
fn child_pred(
    alloc: Global,
    tables: &[TableInfo],
    child: Child,
    key: &Key,
) -> Result<Pred, NoMemory>
    requires { All IsTable tables.now }
    ensures { IfOk result (λ pred. pred ≡ child_pred tables.now child.table child.column key.now) }
{
    let keys = key_in(tables, child.table as u16);
    let tests = tests_of_key(alloc, keys, child.column, key)?;
    Ok(Pred {
        table: child.table,
        tests,
        columns: List::new(alloc),
    })
}

/// Adds the checks that no row holds one of these keys in a column. If it is a column of the parent table, the rows with
/// these keys may.
fn push_keys(
    alloc: Global,
    tables: &[TableInfo],
    parent: u16,
    keys: &[Key],
    child: Child,
    checks: &mut List<Check>,
) -> Result<(), NoMemory>
    requires { All IsTable tables.now }
    ensures { OnOk result (map (meant keys.now) checks.new ≡ map (meant keys.now) checks.old ++ child_checks tables.now parent keys.now (reference_to parent child)) }
{
    let may_be_own = child.table as u16 == parent;
    for key in keys {
        let pred = child_pred(alloc, tables, child, key)?;
        checks.push(Check::Forbids(pred, may_be_own, End::HasChildren))?;
    }
    Ok(())
}

/// Returns what DELETE of rows with these keys from a table checks: for each of the columns with REFERENCES to it, and
/// each key, that no row holds the key there but rows that are deleted too.
pub fn delete_checks(
    alloc: Global,
    tables: &[TableInfo],
    parent: u16,
    keys: &[Key],
    children: &[Child],
) -> Result<List<Check>, NoMemory>
    requires { All IsTable tables.now }
    ensures { IfOk result (λ checks. map (meant keys.now) checks ≡ flat_map (child_checks tables.now parent keys.now) (map (reference_to parent) children.now)) }
{
    let mut checks = List::new(alloc);
    for child in children {
        push_keys(alloc, tables, parent, keys, *child, &mut checks)?;
    }
    Ok(checks)
}
