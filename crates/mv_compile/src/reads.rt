//! What is known of a single statement before it runs.

ghost use Rattle.std.specs.Prelude.{◌≡◌, ◌≤◌, ◌++◌, ◌∷◌, [], All, IfOk, OnOk, length, map, option_to_list};
ghost use Rattle.std.specs.List.{flat_map};
ghost use Rattle.mv_values.specs.References.{parent_of, references_to};
ghost use Rattle.mv_catalog.specs.Text.{IsTable};
ghost use Rattle.mv_catalog.specs.declared.resolved.RStmt.{out-RStmt};
ghost use Rattle.mv_graph.specs.Nodes.{keyword_of, may_set, changed_table, own_table, referring_tables, asked_tables};

use mv_catalog::resolved::{RSetItem, RStmt};
use mv_checks::children::{Child, children_of};
use mv_eval::find::{columns_in, parent_in};
use mv_graph::graph::Keyword;
use mv_recorded::reads::once_each;
use mv_values::list::List;
use mv_values::memory::NoMemory;
use mv_values::schema::{Column, TableInfo};
use std::alloc::Global;

// Variables

/// Returns a list of one variable.
fn one(alloc: Global, variable: u16) -> Result<List<u16>, NoMemory>
    ensures { IfOk result (λ all. all ≡ variable ∷ []) }
{
    let mut all = List::new(alloc);
    all.push(variable)?;
    Ok(all)
}

/// Adds `:found`, which has this number, to the variables.
fn with_found(all: List<u16>, found: u16) -> Result<List<u16>, NoMemory>
    ensures { IfOk result (λ new. new ≡ all ++ found ∷ []) }
{
    let mut new = all;
    new.push(found)?;
    Ok(new)
}

/// Returns the variables that a loop may set: its row, and `:found`.
fn set_by_loop(alloc: Global, row: u16, found: u16) -> Result<List<u16>, NoMemory>
    ensures { IfOk result (λ all. all ≡ row ∷ found ∷ []) }
{
    with_found(one(alloc, row)?, found)
}

/// Returns the variables that a statement may set. `found` is the number of `:found`.
pub(crate) fn sets(alloc: Global, found: u16, statement: &RStmt) -> Result<List<u16>, NoMemory>
    ensures { IfOk result (λ all. all ≡ may_set found (out-RStmt statement.now)) }
{
    match statement {
        RStmt::Branch { .. } | RStmt::Print { .. } | RStmt::Rollback { .. } => Ok(List::new(alloc)),
        RStmt::Assign { to, .. } => one(alloc, *to),
        RStmt::Select { to, .. } => with_found(once_each(alloc, to.as_slice())?, found),
        RStmt::Total { to, .. } => with_found(one(alloc, *to)?, found),
        RStmt::ForSelect { row, .. } | RStmt::ForRows { row, .. } => {
            set_by_loop(alloc, *row, found)
        }
        RStmt::Insert { .. } | RStmt::Update { .. } | RStmt::Delete { .. } => {
            with_found(List::new(alloc), found)
        }
    }
}

/// Returns the keyword that a statement begins with.
pub(crate) fn keyword(statement: &RStmt) -> Keyword
    ensures { result ≡ keyword_of (out-RStmt statement.now) }
{
    match statement {
        RStmt::Assign { .. } => Keyword::Set,
        RStmt::Select { .. } | RStmt::Total { .. } => Keyword::Select,
        RStmt::ForSelect { .. } | RStmt::ForRows { .. } => Keyword::For,
        RStmt::Branch { .. } => Keyword::If,
        RStmt::Insert { .. } => Keyword::Insert,
        RStmt::Update { .. } => Keyword::Update,
        RStmt::Delete { .. } => Keyword::Delete,
        RStmt::Print { .. } => Keyword::Print,
        RStmt::Rollback { .. } => Keyword::Rollback,
    }
}

/// Returns the table that a statement changes, if any.
pub(crate) fn changes(statement: &RStmt) -> Option<u16>
    ensures { result ≡ changed_table (out-RStmt statement.now) }
{
    match statement {
        RStmt::Insert { table, .. } | RStmt::Update { table, .. } | RStmt::Delete { table, .. } => {
            Some(*table)
        }
        _ => None,
    }
}

// Tables of predicates

/// Adds the parent table of a column, if it has one.
fn add_parent(found: &mut List<u16>, refers: Option<u8>) -> Result<(), NoMemory>
    ensures { OnOk result (found.new ≡ found.old ++ option_to_list refers) }
{
    match refers {
        Some(table) => found.push(table as u16),
        None => Ok(()),
    }
}

/// Adds the parent tables of columns, in order.
fn add_parents(found: &mut List<u16>, columns: &[Column]) -> Result<(), NoMemory>
    ensures { OnOk result (found.new ≡ found.old ++ flat_map (λ column. option_to_list column.refers) columns.now) }
{
    for column in columns {
        add_parent(found, column.refers)?;
    }
    Ok(())
}

/// Adds the parent tables of the columns of a table that SET sets, in order.
fn add_set_parents(
    found: &mut List<u16>,
    tables: &[TableInfo],
    table: u16,
    items: &[RSetItem],
) -> Result<(), NoMemory>
    ensures { OnOk result (found.new ≡ found.old ++ flat_map (λ i. option_to_list (parent_of tables.now table i.column)) items.now) }
{
    let columns = columns_in(tables, table);
    for item in items {
        add_parent(found, parent_in(columns, item.column))?;
    }
    Ok(())
}

/// Adds the tables of columns.
fn add_tables(found: &mut List<u16>, children: &[Child]) -> Result<(), NoMemory>
    ensures { OnOk result (found.new ≡ found.old ++ map (λ child. child.table) children.now) }
{
    for child in children {
        found.push(child.table as u16)?;
    }
    Ok(())
}

/// Adds the tables that have columns with REFERENCES to a table, one for each such column.
#[tactic(auto, using(crate::proofs::Asking::child_tables))]
fn add_children(
    alloc: Global,
    found: &mut List<u16>,
    tables: &[TableInfo],
    table: u16,
) -> Result<(), NoMemory>
    requires few { length tables.now ≤ 64 }
    requires each { All IsTable tables.now }
    ensures { OnOk result (found.new ≡ found.old ++ map (λ r. r.table) (references_to tables.now table)) }
{
    let children = children_of(alloc, tables, table)?;
    add_tables(found, children.as_slice())
}

/// Returns the table of a statement's own predicate, if it has one.
fn asked(statement: &RStmt) -> Option<u16>
    ensures { option_to_list result ≡ own_table (out-RStmt statement.now) }
{
    match statement {
        RStmt::Select { table, .. }
        | RStmt::Total { table, .. }
        | RStmt::ForSelect { table, .. }
        | RStmt::Insert { table, .. }
        | RStmt::Update { table, .. }
        | RStmt::Delete { table, .. } => Some(*table),
        _ => None,
    }
}

/// Adds the tables of a statement's predicates after its own one.
fn add_referring(
    alloc: Global,
    found: &mut List<u16>,
    tables: &[TableInfo],
    statement: &RStmt,
) -> Result<(), NoMemory>
    requires few { length tables.now ≤ 64 }
    requires each { All IsTable tables.now }
    ensures { OnOk result (found.new ≡ found.old ++ referring_tables tables.now (out-RStmt statement.now)) }
{
    match statement {
        RStmt::Insert { table, .. } => add_parents(found, columns_in(tables, *table)),
        RStmt::Update { table, items, .. } => {
            add_set_parents(found, tables, *table, items.as_slice())
        }
        RStmt::Delete { table, .. } => add_children(alloc, found, tables, *table),
        _ => Ok(()),
    }
}

/// Returns the tables of a statement's predicates: its own one; then those of the parents that INSERT and UPDATE look for,
/// and those whose rows may be children of rows that DELETE deletes.
pub(crate) fn asks(
    alloc: Global,
    tables: &[TableInfo],
    statement: &RStmt,
) -> Result<List<u16>, NoMemory>
    requires few { length tables.now ≤ 64 }
    requires each { All IsTable tables.now }
    ensures { IfOk result (λ all. all ≡ asked_tables tables.now (out-RStmt statement.now)) }
{
    let mut all = List::new(alloc);
    if let Some(table) = asked(statement) {
        all.push(table)?;
    }
    add_referring(alloc, &mut all, tables, statement)?;
    Ok(all)
}
