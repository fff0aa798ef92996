//! Faults of statement lists, and of statements that contain others.

ghost use Rattle.std.specs.Prelude.{◌≡◌, ◌∷◌, ◌++◌, [], OnOk};
ghost use Rattle.mv_names.specs.Statements.{table_named, statements, statement_faults, for_select, for_rows};

use crate::exprs::check_placed;
use crate::fault::TokenFault;
use crate::index::Index;
use crate::nested::Scope;
use crate::scope::{Entry, ValueType};
use crate::statements::{
    check_assign, check_delete, check_insert, check_rows, check_select, check_selected,
    check_total, check_turn_name, check_update, check_values, fields_of, turn_with,
};
use crate::tables::TableNames;
use mv_ast::tree::{Name, Selection, Stmt};
use mv_values::list::List;
use mv_values::memory::NoMemory;
use std::alloc::Global;

/// Adds the faults of statements. Leaves the scope as it was.
#[cycle(statements)]
pub(crate) fn check_statements<'a>(
    alloc: Global,
    tables: &Index<'_, TableNames<'_>>,
    body: &'a [Stmt],
    scope: &mut Scope<'a, Entry>,
    faults: &mut List<TokenFault>,
) -> Result<(), NoMemory>
    ensures faults { OnOk result (faults.new ≡ faults.old ++ statements tables.now body.now scope.old) }
    ensures scope { OnOk result (scope.new ≡ scope.old) }
{
    for statement in body {
        check_statement(alloc, tables, statement, scope, faults)?;
    }
    Ok(())
}

/// Adds the faults of a statement. Leaves the scope as it was.
#[cycle(statements)]
fn check_statement<'a>(
    alloc: Global,
    tables: &Index<'_, TableNames<'_>>,
    statement: &'a Stmt,
    scope: &mut Scope<'a, Entry>,
    faults: &mut List<TokenFault>,
) -> Result<(), NoMemory>
    ensures faults { OnOk result (faults.new ≡ faults.old ++ statement_faults tables.now statement.now scope.old) }
    ensures scope { OnOk result (scope.new ≡ scope.old) }
{
    match statement {
        Stmt::Assign { to, right, .. } => check_assign(scope, to, right, faults),
        Stmt::Select {
            columns,
            to,
            table,
            conds,
            sorts,
            offset,
            ..
        } => {
            let selection = Selection {
                table,
                columns: columns.as_slice(),
                conds: conds.as_slice(),
                sorts: sorts.as_slice(),
            };
            let found = tables.find(&table.text);
            check_select(
                alloc,
                scope,
                found,
                &selection,
                to.as_slice(),
                offset,
                faults,
            )
        }
        Stmt::Total {
            agg,
            to,
            table,
            conds,
            ..
        } => check_total(
            scope,
            tables.find(&table.text),
            agg,
            to,
            table,
            conds.as_slice(),
            faults,
        ),
        Stmt::ForSelect {
            row,
            columns,
            table,
            conds,
            sorts,
            body,
            ..
        } => {
            let selection = Selection {
                table,
                columns: columns.as_slice(),
                conds: conds.as_slice(),
                sorts: sorts.as_slice(),
            };
            check_for_select(
                alloc,
                tables,
                row,
                &selection,
                body.as_slice(),
                scope,
                faults,
            )
        }
        Stmt::ForRows {
            row,
            rows,
            body,
            ..
        } => check_for_rows(alloc, tables, row, rows, body.as_slice(), scope, faults),
        Stmt::Branch { test, yes, no, .. } => {
            check_placed(ValueType::Int, scope, test, faults)?;
            check_statements(alloc, tables, yes.as_slice(), scope, faults)?;
            check_statements(alloc, tables, no.as_slice(), scope, faults)
        }
        Stmt::Insert { table, values, .. } => check_insert(
            scope,
            tables.find(&table.text),
            table,
            values.as_slice(),
            faults,
        ),
        Stmt::Update {
            table,
            items,
            conds,
            ..
        } => check_update(
            alloc,
            scope,
            tables.find(&table.text),
            table,
            items.as_slice(),
            conds.as_slice(),
            faults,
        ),
        Stmt::Delete { table, conds, .. } => check_delete(
            scope,
            tables.find(&table.text),
            table,
            conds.as_slice(),
            faults,
        ),
        Stmt::Print { values, .. } => { check_values(scope, &[], values.as_slice(), faults) }
        Stmt::Rollback { .. } => Ok(()),
    }
}

/// Checks a FOR over SELECT. Its row is in scope in its body only.
#[cycle(statements)]
fn check_for_select<'a>(
    alloc: Global,
    tables: &Index<'_, TableNames<'_>>,
    turn: &'a Name,
    selection: &Selection<'_>,
    body: &'a [Stmt],
    scope: &mut Scope<'a, Entry>,
    faults: &mut List<TokenFault>,
) -> Result<(), NoMemory>
    ensures faults { OnOk result (faults.new ≡ faults.old ++ for_select (table_named tables.now selection.now.table.now.text) turn.now selection.now.columns.now selection.now.table.now selection.now.conds.now selection.now.sorts.now (statements tables.now body.now) scope.old) }
    ensures scope { OnOk result (scope.new ≡ scope.old) }
{
    let found = tables.find(&selection.table.text);
    check_turn_name(scope, turn, faults)?;
    let fields = check_selected(alloc, scope, found, selection, faults)?;
    let entry = turn_with(alloc, turn, fields)?;
    check_body(alloc, tables, turn, entry, body, scope, faults)
}

/// Checks a FOR over a ROWS parameter.
#[cycle(statements)]
fn check_for_rows<'a>(
    alloc: Global,
    tables: &Index<'_, TableNames<'_>>,
    turn: &'a Name,
    rows: &Name,
    body: &'a [Stmt],
    scope: &mut Scope<'a, Entry>,
    faults: &mut List<TokenFault>,
) -> Result<(), NoMemory>
    ensures faults { OnOk result (faults.new ≡ faults.old ++ for_rows turn.now rows.now (statements tables.now body.now) scope.old) }
    ensures scope { OnOk result (scope.new ≡ scope.old) }
{
    let found = scope.find(&rows.text);
    check_turn_name(scope, turn, faults)?;
    check_rows(found, rows.token, faults)?;
    let entry = turn_with(alloc, turn, fields_of(alloc, found)?)?;
    check_body(alloc, tables, turn, entry, body, scope, faults)
}

/// Checks the body of a loop, with its row in scope.
#[cycle(statements)]
fn check_body<'a>(
    alloc: Global,
    tables: &Index<'_, TableNames<'_>>,
    turn: &'a Name,
    entry: Entry,
    body: &'a [Stmt],
    scope: &mut Scope<'a, Entry>,
    faults: &mut List<TokenFault>,
) -> Result<(), NoMemory>
    requires { turn.now.text ≡ entry.name }
    ensures faults { OnOk result (faults.new ≡ faults.old ++ statements tables.now body.now (scope.old ++ entry ∷ [])) }
    ensures scope { OnOk result (scope.new ≡ scope.old) }
{
    let outside = scope.len();
    scope.push(turn.text.as_slice(), entry)?;
    check_statements(alloc, tables, body, scope, faults)?;
    scope.truncate(outside);
    Ok(())
}
