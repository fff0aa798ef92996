//! The columns of a script that are indexed.

ghost use Rattle.std.specs.Prelude.{◌≡◌, ◌<◌, ◌==◌, ◌&&◌, ◌||◌, ℕ, IfOk, OnOk};
ghost use Rattle.std.specs.List.{list_any};
ghost use Rattle.std.specs.Option.{option_copied};
ghost use Rattle.mv_values.specs.References.{parent_in, parent_of};
ghost use Rattle.mv_values.specs.Testing.{are_tested};
ghost use Rattle.mv_script.specs.Columns.{leads, leads_key, is_indexed_by, is_delete, deletes, delete_any, finds_children, is_for_children, is_looked_up, are_indexed};

use crate::script::CompiledScript;
use mv_graph::graph::{Graph, Keyword, Node};
use mv_values::list::List;
use mv_values::memory::NoMemory;
use mv_values::schema::{Column, TableInfo};
use mv_values::tested::Tested;
use std::alloc::Global;

/// The most tables of a script, and the most columns of a table.
const TABLES: u8 = 64;

const COLUMNS: u8 = 32;

/// Whether a column is the first of its table's key.
fn leads_key(tables: &[TableInfo], column: Tested) -> bool
    ensures { result ≡ leads_key tables.now column.table column.column }
{
    match tables.get(column.table as usize) {
        Some(table) => leads(table.key.as_slice(), column.column),
        None => false,
    }
}

/// Whether a column is the first of a key.
fn leads(key: &[u8], column: u8) -> bool
    ensures { result ≡ leads column key.now }
{
    match key {
        [first, ..] => *first == column,
        [] => false,
    }
}

/// Whether a column is among those that are indexed.
fn is_among(all: &[Tested], column: Tested) -> bool
    ensures { result ≡ are_tested all.now column.table column.column }
{
    all.iter().any(|one| one.table == column.table && one.column == column.column)
}

/// Adds a column, unless it is there or leads its table's key.
fn add_column(all: &mut List<Tested>, tables: &[TableInfo], column: Tested) -> Result<(), NoMemory>
    ensures { OnOk result ((t c : ℕ) → are_tested all.new t c ≡ (are_tested all.old t c || is_indexed_by tables.now t c column)) }
{
    if leads_key(tables, column) {
        return Ok(());
    }
    if is_among(all.as_slice(), column) {
        return Ok(());
    }
    all.push(column)
}

/// Adds columns, but for those that are there or lead their table's key.
fn add_all(all: &mut List<Tested>, tables: &[TableInfo], columns: &[Tested]) -> Result<(), NoMemory>
    ensures { OnOk result ((t c : ℕ) → are_tested all.new t c ≡ (are_tested all.old t c || list_any (is_indexed_by tables.now t c) columns.now)) }
{
    for column in columns {
        add_column(all, tables, *column)?;
    }
    Ok(())
}

/// Adds the columns that a graph tests, but for those that lead their table's key.
fn add_tested(all: &mut List<Tested>, graph: &Graph) -> Result<(), NoMemory>
    ensures { OnOk result ((t c : ℕ) → are_tested all.new t c ≡ (are_tested all.old t c || list_any (is_indexed_by graph.now.tables t c) graph.now.tested)) }
{
    add_all(all, graph.tables.as_slice(), graph.tested())
}

/// Whether a statement is a DELETE.
fn is_delete(keyword: Keyword) -> bool
    ensures { result ≡ is_delete keyword }
{
    match keyword {
        Keyword::Delete => true,
        _ => false,
    }
}

/// Whether a statement deletes rows of a table.
fn deletes(node: &Node, table: u16) -> bool
    ensures { result ≡ deletes table node.now }
{
    match node.changes {
        Some(changed) => is_delete(node.keyword) && changed == table,
        None => false,
    }
}

/// Returns the parent table of a column, if it has REFERENCES.
fn parent_in(column: Option<&Column>) -> Option<u8>
    ensures { result ≡ parent_in (option_copied column.entry) }
{
    match column {
        Some(column) => column.refers,
        None => None,
    }
}

/// Returns the parent table of a column of a table, if it has REFERENCES.
fn parent_of(tables: &[TableInfo], column: Tested) -> Option<u8>
    ensures { result ≡ parent_of tables.now column.table column.column }
{
    match tables.get(column.table as usize) {
        Some(table) => parent_in(table.columns.as_slice().get(column.column as usize)),
        None => None,
    }
}

/// Whether one of these statements deletes rows of a table.
fn is_deleted_from(nodes: &[Node], table: u16) -> bool
    ensures { result ≡ list_any (deletes table) nodes.now }
{
    nodes.iter().any(|node| deletes(node, table))
}

/// Whether one of these statements deletes rows of a table, if there is one.
fn delete_any(nodes: &[Node], table: Option<u8>) -> bool
    ensures { result ≡ delete_any nodes.now table }
{
    match table {
        Some(table) => is_deleted_from(nodes, table as u16),
        None => false,
    }
}

/// Whether a procedure looks for the children of rows that it deletes by this column.
fn finds_children(graph: &Graph, column: Tested) -> bool
    ensures { result ≡ finds_children graph.now column.table column.column }
{
    delete_any(
        graph.nodes.as_slice(),
        parent_of(graph.tables.as_slice(), column),
    )
}

/// Adds a column if a graph looks for children by it, unless it is there or leads its table's key.
fn add_child_column(all: &mut List<Tested>, graph: &Graph, column: Tested) -> Result<(), NoMemory>
    ensures { OnOk result ((t c : ℕ) → are_tested all.new t c ≡ (are_tested all.old t c || (finds_children graph.now column.table column.column && is_indexed_by graph.now.tables t c column))) }
{
    if !finds_children(graph, column) {
        return Ok(());
    }
    add_column(all, graph.tables.as_slice(), column)
}

/// Adds the columns of a table by which a graph looks for children, but for one that leads its key.
fn add_child_columns(all: &mut List<Tested>, graph: &Graph, table: u8) -> Result<(), NoMemory>
    ensures { OnOk result ((t c : ℕ) → c < 32 → are_tested all.new t c ≡ (are_tested all.old t c || ((table == t) && is_for_children graph.now t c))) }
{
    for column in 0..COLUMNS {
        add_child_column(all, graph, Tested { table, column })?;
    }
    Ok(())
}

/// Adds the columns by which a graph looks for children, but for those that lead their table's key.
fn add_children(all: &mut List<Tested>, graph: &Graph) -> Result<(), NoMemory>
    ensures { OnOk result ((t c : ℕ) → t < 64 → c < 32 → are_tested all.new t c ≡ (are_tested all.old t c || is_for_children graph.now t c)) }
{
    for table in 0..TABLES {
        add_child_columns(all, graph, table)?;
    }
    Ok(())
}

/// Adds the columns by which a graph looks rows up, but for those that lead their table's key.
fn add_columns(all: &mut List<Tested>, graph: &Graph) -> Result<(), NoMemory>
    ensures { OnOk result ((t c : ℕ) → t < 64 → c < 32 → are_tested all.new t c ≡ (are_tested all.old t c || is_looked_up t c graph.now)) }
{
    add_tested(all, graph)?;
    add_children(all, graph)
}

/// Returns the columns that are indexed, each once. A WHERE of some procedure tests them with `=`, or a DELETE looks for
/// children by them. Columns that lead the key of their table are left out.
pub fn indexed_columns(alloc: Global, script: &CompiledScript) -> Result<List<Tested>, NoMemory>
    ensures { IfOk result (λ columns. (t c : ℕ) → t < 64 → c < 32 → are_tested columns t c ≡ are_indexed script.now t c) }
{
    let mut all = List::new(alloc);
    for graph in script.graphs.as_slice() {
        add_columns(&mut all, graph)?;
    }
    Ok(all)
}
