//! Builds the program of a script without faults.

ghost use Rattle.std.specs.Prelude.{◌≡◌, IfOk, map, slice_get};
ghost use Rattle.mv_names.specs.Named.{place_named};
ghost use Rattle.mv_ast.specs.declared.tree.Name.{Name as NameValue};
ghost use Rattle.mv_ast.specs.declared.tree.TableDef.{TableDef as TableValue};
ghost use Rattle.mv_ast.specs.declared.tree.Param.{Param as ParamValue};
ghost use Rattle.mv_ast.specs.declared.tree.VarDef.{VarDef as VarValue};
ghost use Rattle.mv_ast.specs.declared.tree.ColDef.{ColDef as ColValue};
ghost use Rattle.mv_resolve.specs.Building.{tiny, column_name, parent_number, described, table_of, row_of, rows_of, param_of, procedure_of, copy_info, copy_of, argument_of, call_of, journal_of, resolved_parts};

use crate::build_names::{number_of_found, push_copy, slots, small_number, sum, tiny_number};
use crate::build_statements::statements;
use mv_ast::tree::{
    Arg, CallDef, ColDef, CopyDef, LitRow, Name, Param, ParamKind, ProcDef, Span, TableDef, VarDef,
};
use mv_catalog::resolved::{CopyInfo, ParamInfo, ProcInfo, RStmt, Resolved};
use mv_names::index::Index;
use mv_names::parts::Parts;
use mv_names::tables::{TableNames, with_columns};
use mv_values::calls::{Argument, Call};
use mv_values::copied::Copied;
use mv_values::list::List;
use mv_values::memory::NoMemory;
use mv_values::schema::{ColType, Column, TableInfo};
use mv_values::value::{Row, Value};
use std::alloc::Global;

// Tables

/// Returns the number of a column's parent table, if it has REFERENCES.
fn number_of_parent(tables: &Index<'_, TableNames<'_>>, parent: &Option<Name>) -> Option<u8>
    ensures { result ≡ parent_number tables.now parent.now }
{
    match parent {
        None => None,
        Some(name) => Some(tiny_number(tables.place(&name.text))),
    }
}

fn described_columns(
    alloc: Global,
    tables: &Index<'_, TableNames<'_>>,
    columns: &[ColDef],
) -> Result<List<Column>, NoMemory>
    ensures { IfOk result (λ all. all ≡ map (described tables.now) columns.now) }
{
    let mut all = List::new(alloc);
    for column in columns {
        all.push(Column {
            name: column.name.text.copy(alloc)?,
            kind: column.kind,
            refers: number_of_parent(tables, &column.refers),
        })?;
    }
    Ok(all)
}

/// Returns the indexes of the key columns, in the order of PRIMARY KEY.
fn key_places(
    alloc: Global,
    columns: &Index<'_, ColDef>,
    key: &[Name],
) -> Result<List<u8>, NoMemory>
    ensures { IfOk result (λ all. all ≡ map (λ (n : NameValue). tiny (place_named column_name columns.now n.text)) key.now) }
{
    let mut all = List::new(alloc);
    for name in key {
        all.push(tiny_number(columns.place(&name.text)))?;
    }
    Ok(all)
}

fn table_info(
    alloc: Global,
    tables: &Index<'_, TableNames<'_>>,
    table: &TableNames<'_>,
) -> Result<TableInfo, NoMemory>
    ensures { IfOk result (λ t. t ≡ table_of tables.now table.now) }
{
    let definition = table.definition();
    Ok(TableInfo {
        name: definition.name.text.copy(alloc)?,
        columns: described_columns(alloc, tables, definition.columns.as_slice())?,
        key: key_places(alloc, table.columns(), definition.key.as_slice())?,
    })
}

fn table_infos(
    alloc: Global,
    index: &Index<'_, TableNames<'_>>,
    tables: &[TableNames<'_>],
) -> Result<List<TableInfo>, NoMemory>
    ensures { IfOk result (λ all. all ≡ map (table_of index.now) tables.now) }
{
    let mut all = List::new(alloc);
    for table in tables {
        all.push(table_info(alloc, index, table)?)?;
    }
    Ok(all)
}

fn row(alloc: Global, literals: &LitRow) -> Result<Row, NoMemory>
    ensures { IfOk result (λ r. r ≡ row_of literals.now) }
{
    let mut all = List::new(alloc);
    for literal in literals.values.as_slice() {
        push_copy(alloc, &mut all, &literal.value)?;
    }
    Ok(all)
}

fn rows(alloc: Global, literals: &[LitRow]) -> Result<List<Row>, NoMemory>
    ensures { IfOk result (λ all. all ≡ rows_of literals.now) }
{
    let mut all = List::new(alloc);
    for one in literals {
        all.push(row(alloc, one)?)?;
    }
    Ok(all)
}

/// Returns the rows of VALUES for each table.
fn rows_of_tables(alloc: Global, tables: &[TableDef]) -> Result<List<List<Row>>, NoMemory>
    ensures { IfOk result (λ all. all ≡ map (λ (t : TableValue). rows_of t.rows) tables.now) }
{
    let mut all = List::new(alloc);
    for table in tables {
        all.push(rows(alloc, table.rows.as_slice())?)?;
    }
    Ok(all)
}

// Procedures

fn types(alloc: Global, columns: &[ColDef]) -> Result<List<ColType>, NoMemory>
    ensures { IfOk result (λ all. all ≡ map (λ (c : ColValue). c.kind) columns.now) }
{
    let mut all = List::new(alloc);
    for column in columns {
        all.push(column.kind)?;
    }
    Ok(all)
}

fn param(alloc: Global, kind: &ParamKind) -> Result<ParamInfo, NoMemory>
    ensures { IfOk result (λ p. p ≡ param_of kind.now) }
{
    match kind {
        ParamKind::One(kind) => Ok(ParamInfo::One(*kind)),
        ParamKind::Many(columns) => Ok(ParamInfo::Many(types(alloc, columns.as_slice())?)),
    }
}

fn params(alloc: Global, params: &[Param]) -> Result<List<ParamInfo>, NoMemory>
    ensures { IfOk result (λ all. all ≡ map (λ (q : ParamValue). param_of q.kind) params.now) }
{
    let mut all = List::new(alloc);
    for one in params {
        all.push(param(alloc, &one.kind)?)?;
    }
    Ok(all)
}

fn defaults(alloc: Global, vars: &[VarDef]) -> Result<List<Value>, NoMemory>
    ensures { IfOk result (λ all. all ≡ map (λ (v : VarValue). v.initial.value) vars.now) }
{
    let mut all = List::new(alloc);
    for var in vars {
        push_copy(alloc, &mut all, &var.initial.value)?;
    }
    Ok(all)
}

/// Builds the body of a procedure. Its first loop has the number after that of `:found`.
fn body(
    alloc: Global,
    tables: &Index<'_, TableNames<'_>>,
    definition: &ProcDef,
) -> Result<List<RStmt>, NoMemory>
    ensures { IfOk result (λ all. all ≡ (procedure_of tables.now definition.now).body) }
{
    let mut slots = slots(alloc, definition)?;
    let mut next = sum(number_of_found(definition)?, 1)?;
    let body = definition.body.as_slice();
    let all = statements(alloc, tables, body, &mut slots, &mut next)?;
    Ok(all)
}

fn procedure(
    alloc: Global,
    tables: &Index<'_, TableNames<'_>>,
    definition: &ProcDef,
) -> Result<ProcInfo, NoMemory>
    ensures { IfOk result (λ p. p ≡ procedure_of tables.now definition.now) }
{
    Ok(ProcInfo {
        name: definition.name.text.copy(alloc)?,
        params: params(alloc, definition.params.as_slice())?,
        read_only: definition.read_only,
        defaults: defaults(alloc, definition.vars.as_slice())?,
        body: body(alloc, tables, definition)?,
    })
}

fn procedures(
    alloc: Global,
    tables: &Index<'_, TableNames<'_>>,
    definitions: &[ProcDef],
) -> Result<List<ProcInfo>, NoMemory>
    ensures { IfOk result (λ all. all ≡ map (procedure_of tables.now) definitions.now) }
{
    let mut all = List::new(alloc);
    for definition in definitions {
        all.push(procedure(alloc, tables, definition)?)?;
    }
    Ok(all)
}

// Copies and calls

/// Returns a block that fills the table with this number.
fn block_into(table: u8, block: Span) -> CopyInfo
    ensures { result ≡ copy_info table block }
{
    CopyInfo {
        table,
        at: block.at,
        len: block.len,
        closed: block.closed,
    }
}

fn copy_into(tables: &Index<'_, TableNames<'_>>, definition: &CopyDef) -> CopyInfo
    ensures { result ≡ copy_of tables.now definition.now }
{
    let table = tiny_number(tables.place(&definition.table.text));
    block_into(table, definition.block)
}

fn copies(
    alloc: Global,
    tables: &Index<'_, TableNames<'_>>,
    definitions: &[CopyDef],
) -> Result<List<CopyInfo>, NoMemory>
    ensures { IfOk result (λ all. all ≡ map (copy_of tables.now) definitions.now) }
{
    let mut all = List::new(alloc);
    for definition in definitions {
        all.push(copy_into(tables, definition))?;
    }
    Ok(all)
}

fn argument(alloc: Global, argument: &Arg) -> Result<Argument, NoMemory>
    ensures { IfOk result (λ a. a ≡ argument_of argument.now) }
{
    match argument {
        Arg::One(literal) => Ok(Argument::One(literal.value.copy(alloc)?)),
        Arg::Many(literals) => Ok(Argument::Many(rows(alloc, literals.rows.as_slice())?)),
    }
}

fn arguments(alloc: Global, arguments: &[Arg]) -> Result<List<Argument>, NoMemory>
    ensures { IfOk result (λ all. all ≡ map argument_of arguments.now) }
{
    let mut all = List::new(alloc);
    for one in arguments {
        all.push(argument(alloc, one)?)?;
    }
    Ok(all)
}

/// Builds a call.
fn call(
    alloc: Global,
    procedures: &Index<'_, ProcDef>,
    definition: &CallDef,
) -> Result<Call, NoMemory>
    ensures { IfOk result (λ c. c ≡ call_of procedures.now definition.now) }
{
    Ok(Call {
        procedure: small_number(procedures.place(&definition.name.text)),
        arguments: arguments(alloc, definition.arguments.as_slice())?,
    })
}

fn calls(
    alloc: Global,
    procedures: &[ProcDef],
    definitions: &[CallDef],
) -> Result<List<Call>, NoMemory>
    ensures { IfOk result (λ all. all ≡ map (call_of procedures.now) definitions.now) }
{
    let index = Index::of(alloc, procedures)?;
    let mut all = List::new(alloc);
    for definition in definitions {
        all.push(call(alloc, &index, definition)?)?;
    }
    Ok(all)
}

/// Returns the first journal.
fn journal(blocks: &[Span]) -> Option<CopyInfo>
    ensures { result ≡ journal_of (slice_get blocks.now 0) }
{
    match blocks {
        [] => None,
        [block, ..] => Some(block_into(0, *block)),
    }
}

/// Builds the program of a script's parts. If the parts have a fault, the numbers of unknown names are arbitrary. Fails
/// if memory runs out. Costs the size of the parts, a hash of each name, and a search of at most 32 names for each
/// column of a loop's row.
pub fn built(alloc: Global, parts: &Parts) -> Result<Resolved, NoMemory>
    ensures { IfOk result (λ r. r ≡ resolved_parts parts.now) }
{
    let definitions = parts.procedures.as_slice();
    let tables = with_columns(alloc, parts.tables.as_slice())?;
    let index = Index::of(alloc, tables.as_slice())?;
    Ok(Resolved {
        tables: table_infos(alloc, &index, tables.as_slice())?,
        rows: rows_of_tables(alloc, parts.tables.as_slice())?,
        procedures: procedures(alloc, &index, definitions)?,
        copies: copies(alloc, &index, parts.copies.as_slice())?,
        calls: calls(alloc, definitions, parts.calls.as_slice())?,
        journal: journal(parts.journals.as_slice()),
    })
}
