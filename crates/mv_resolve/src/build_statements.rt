//! Builds statements. Loops are numbered in the order of the text. A loop's row is in scope in its body under its name.

ghost use Rattle.std.specs.Prelude.{◌≡◌, ◌+◌, ◌++◌, ◌∷◌, [], IfOk, OnOk, map};
ghost use Rattle.mv_catalog.specs.declared.resolved.RStmt.TheVariants as r_stmt;
ghost use Rattle.mv_resolve.specs.Building.{small, table_place, columns_named, column_number, number_of, numbers_of, plain, plains, maybe_plain, conds_of, sorts_of, agg_of, items_of, built, for_select, for_rows, loops_of, statements_of};

use crate::build_exprs::{aggregate, conds, offset, plain_expr, plain_exprs, set_items, sorts};
use crate::build_names::{
    columns, fields, number_in, numbered_table, slot_at, small_number, sum, texts, variable,
    variables,
};
use crate::slot::NamedSlot;
use mv_ast::tree::{Agg, Cond, Expr, Name, Selection, SetItem, Stmt};
use mv_catalog::resolved::RStmt;
use mv_names::index::Index;
use mv_names::nested::Scope;
use mv_names::tables::TableNames;
use mv_values::copied::Copied;
use mv_values::list::List;
use mv_values::memory::NoMemory;
use mv_values::txt::Txt;
use std::alloc::Global;

// Statements that contain no others

/// Builds a SET.
fn assign(
    alloc: Global,
    slots: &Scope<'_, NamedSlot>,
    to: &Name,
    right: &Expr,
) -> Result<RStmt, NoMemory>
    ensures { IfOk result (λ s. s ≡ r_stmt.Assign (number_of slots.now to.now) (plain slots.now right.now)) }
{
    let right = plain_expr(alloc, slots, right)?;
    Ok(RStmt::Assign {
        to: variable(slots, to),
        right,
    })
}

/// Builds a SELECT INTO.
fn select(
    alloc: Global,
    tables: &Index<'_, TableNames<'_>>,
    slots: &Scope<'_, NamedSlot>,
    selection: &Selection<'_>,
    to: &[Name],
    skip: &Option<Expr>,
) -> Result<RStmt, NoMemory>
    ensures { IfOk result (λ s. let own = columns_named tables.now selection.now.table.now in s ≡ r_stmt.Select (map (column_number own) selection.now.columns.now) (numbers_of slots.now to.now) (small (table_place tables.now selection.now.table.now)) (conds_of slots.now own selection.now.conds.now) (sorts_of own selection.now.sorts.now) (maybe_plain slots.now skip.now)) }
{
    let (number, own) = numbered_table(tables, selection.table);
    Ok(RStmt::Select {
        columns: columns(alloc, own, selection.columns)?,
        to: variables(alloc, slots, to)?,
        table: number,
        conds: conds(alloc, slots, own, selection.conds)?,
        sorts: sorts(alloc, own, selection.sorts)?,
        offset: offset(alloc, slots, skip)?,
    })
}

/// Builds a SELECT with an aggregate.
fn total(
    alloc: Global,
    tables: &Index<'_, TableNames<'_>>,
    slots: &Scope<'_, NamedSlot>,
    agg: &Agg,
    to: &Name,
    name: &Name,
    tests: &[Cond],
) -> Result<RStmt, NoMemory>
    ensures { IfOk result (λ s. let own = columns_named tables.now name.now in s ≡ r_stmt.Total (agg_of own agg.now) (number_of slots.now to.now) (small (table_place tables.now name.now)) (conds_of slots.now own tests.now)) }
{
    let (number, own) = numbered_table(tables, name);
    Ok(RStmt::Total {
        agg: aggregate(own, agg),
        to: variable(slots, to),
        table: number,
        conds: conds(alloc, slots, own, tests)?,
    })
}

/// Builds an INSERT.
fn insert(
    alloc: Global,
    tables: &Index<'_, TableNames<'_>>,
    slots: &Scope<'_, NamedSlot>,
    name: &Name,
    values: &[Expr],
) -> Result<RStmt, NoMemory>
    ensures { IfOk result (λ s. s ≡ r_stmt.Insert (small (table_place tables.now name.now)) (plains slots.now values.now)) }
{
    let (number, _) = numbered_table(tables, name);
    Ok(RStmt::Insert {
        table: number,
        values: plain_exprs(alloc, slots, values)?,
    })
}

/// Builds an UPDATE.
fn update(
    alloc: Global,
    tables: &Index<'_, TableNames<'_>>,
    slots: &Scope<'_, NamedSlot>,
    name: &Name,
    items: &[SetItem],
    tests: &[Cond],
) -> Result<RStmt, NoMemory>
    ensures { IfOk result (λ s. let own = columns_named tables.now name.now in s ≡ r_stmt.Update (small (table_place tables.now name.now)) (items_of slots.now own items.now) (conds_of slots.now own tests.now)) }
{
    let (number, own) = numbered_table(tables, name);
    Ok(RStmt::Update {
        table: number,
        items: set_items(alloc, slots, own, items)?,
        conds: conds(alloc, slots, own, tests)?,
    })
}

/// Builds a DELETE.
fn delete(
    alloc: Global,
    tables: &Index<'_, TableNames<'_>>,
    slots: &Scope<'_, NamedSlot>,
    name: &Name,
    tests: &[Cond],
) -> Result<RStmt, NoMemory>
    ensures { IfOk result (λ s. s ≡ r_stmt.Delete (small (table_place tables.now name.now)) (conds_of slots.now (columns_named tables.now name.now) tests.now)) }
{
    let (number, own) = numbered_table(tables, name);
    Ok(RStmt::Delete {
        table: number,
        conds: conds(alloc, slots, own, tests)?,
    })
}

/// Builds a PRINT.
fn print(alloc: Global, slots: &Scope<'_, NamedSlot>, values: &[Expr]) -> Result<RStmt, NoMemory>
    ensures { IfOk result (λ s. s ≡ r_stmt.Print (plains slots.now values.now)) }
{
    Ok(RStmt::Print {
        values: plain_exprs(alloc, slots, values)?,
    })
}

/// Builds a ROLLBACK.
fn rollback(alloc: Global, reason: &Txt) -> Result<RStmt, NoMemory>
    ensures { IfOk result (λ s. s ≡ r_stmt.Rollback reason.now) }
{
    Ok(RStmt::Rollback {
        reason: reason.copy(alloc)?,
    })
}

/// Builds an IF with these branches.
fn branch(
    alloc: Global,
    slots: &Scope<'_, NamedSlot>,
    test: &Expr,
    yes: List<RStmt>,
    no: List<RStmt>,
) -> Result<RStmt, NoMemory>
    ensures { IfOk result (λ s. s ≡ r_stmt.Branch (plain slots.now test.now) yes no) }
{
    Ok(RStmt::Branch {
        test: plain_expr(alloc, slots, test)?,
        yes,
        no,
    })
}

/// Builds a FOR over a SELECT with this number and this body.
fn select_loop(
    alloc: Global,
    tables: &Index<'_, TableNames<'_>>,
    slots: &Scope<'_, NamedSlot>,
    number: usize,
    distinct: bool,
    selection: &Selection<'_>,
    body: List<RStmt>,
) -> Result<RStmt, NoMemory>
    ensures { IfOk result (λ s. let own = columns_named tables.now selection.now.table.now in s ≡ r_stmt.ForSelect (small number) distinct (map (column_number own) selection.now.columns.now) (small (table_place tables.now selection.now.table.now)) (conds_of slots.now own selection.now.conds.now) (sorts_of own selection.now.sorts.now) body) }
{
    let (source, own) = numbered_table(tables, selection.table);
    Ok(RStmt::ForSelect {
        row: small_number(number),
        distinct,
        columns: columns(alloc, own, selection.columns)?,
        table: source,
        conds: conds(alloc, slots, own, selection.conds)?,
        sorts: sorts(alloc, own, selection.sorts)?,
        body,
    })
}

/// Enters a loop: takes the next number, and brings the loop's row into scope.
fn enter<'a>(
    name: &'a Name,
    row: NamedSlot,
    slots: &mut Scope<'a, NamedSlot>,
    next: &mut usize,
) -> Result<(), NoMemory>
    requires { name.now.text ≡ row.name }
    ensures slots { OnOk result (slots.new ≡ slots.old ++ row ∷ []) }
    ensures next { OnOk result (next.new ≡ next.old + 1) }
{
    *next = sum(*next, 1)?;
    slots.push(name.text.as_slice(), row)
}

// Statement lists, and statements that contain others

/// Builds statements. The first loop in them gets the number `next`, and `next` becomes the number after their last
/// loop. `slots` is left as it was.
#[cycle(statements)]
pub(crate) fn statements<'a>(
    alloc: Global,
    tables: &Index<'_, TableNames<'_>>,
    body: &'a [Stmt],
    slots: &mut Scope<'a, NamedSlot>,
    next: &mut usize,
) -> Result<List<RStmt>, NoMemory>
    ensures built { IfOk result (λ all. all ≡ statements_of tables.now body.now slots.old next.old) }
    ensures slots { IfOk result (λ all. slots.new ≡ slots.old) }
    ensures next { IfOk result (λ all. next.new ≡ next.old + loops_of tables.now body.now) }
{
    let mut all = List::new(alloc);
    for s in body {
        all.push(statement(alloc, tables, s, slots, next)?)?;
    }
    Ok(all)
}

/// Builds a statement.
#[cycle(statements)]
fn statement<'a>(
    alloc: Global,
    tables: &Index<'_, TableNames<'_>>,
    s: &'a Stmt,
    slots: &mut Scope<'a, NamedSlot>,
    next: &mut usize,
) -> Result<RStmt, NoMemory>
    ensures built { IfOk result (λ r. r ≡ (built tables.now s.now).build slots.old next.old) }
    ensures slots { IfOk result (λ r. slots.new ≡ slots.old) }
    ensures next { IfOk result (λ r. next.new ≡ next.old + (built tables.now s.now).loops) }
{
    let seen = &*slots;
    match s {
        Stmt::Assign { to, right, .. } => assign(alloc, seen, to, right),
        Stmt::Select {
            columns,
            to,
            table,
            conds,
            sorts,
            offset,
            ..
        } => {
            let selection = Selection {
                table,
                columns: columns.as_slice(),
                conds: conds.as_slice(),
                sorts: sorts.as_slice(),
            };
            select(alloc, tables, seen, &selection, to.as_slice(), offset)
        }
        Stmt::Total {
            agg,
            to,
            table,
            conds,
            ..
        } => total(alloc, tables, seen, agg, to, table, conds.as_slice()),
        Stmt::ForSelect {
            row,
            distinct,
            columns,
            table,
            conds,
            sorts,
            body,
            ..
        } => {
            let selection = Selection {
                table,
                columns: columns.as_slice(),
                conds: conds.as_slice(),
                sorts: sorts.as_slice(),
            };
            let body = body.as_slice();
            over_select(alloc, tables, row, *distinct, &selection, body, slots, next)
        }
        Stmt::ForRows {
            row,
            rows,
            body,
            ..
        } => over_rows(alloc, tables, row, rows, body.as_slice(), slots, next),
        Stmt::Branch { test, yes, no, .. } => {
            let yes = statements(alloc, tables, yes.as_slice(), slots, next)?;
            let no = statements(alloc, tables, no.as_slice(), slots, next)?;
            branch(alloc, slots, test, yes, no)
        }
        Stmt::Insert { table, values, .. } => insert(alloc, tables, seen, table, values.as_slice()),
        Stmt::Update {
            table,
            items,
            conds,
            ..
        } => update(
            alloc,
            tables,
            seen,
            table,
            items.as_slice(),
            conds.as_slice(),
        ),
        Stmt::Delete { table, conds, .. } => delete(alloc, tables, seen, table, conds.as_slice()),
        Stmt::Print { values, .. } => print(alloc, seen, values.as_slice()),
        Stmt::Rollback { reason, .. } => rollback(alloc, reason),
    }
}

/// Builds the body of the loop that `slot` names. The loop takes the next number.
#[cycle(statements)]
fn body_under<'a>(
    alloc: Global,
    tables: &Index<'_, TableNames<'_>>,
    name: &'a Name,
    slot: NamedSlot,
    body: &'a [Stmt],
    slots: &mut Scope<'a, NamedSlot>,
    next: &mut usize,
) -> Result<List<RStmt>, NoMemory>
    requires { name.now.text ≡ slot.name }
    ensures built { IfOk result (λ all. all ≡ statements_of tables.now body.now (slots.old ++ slot ∷ []) (next.old + 1)) }
    ensures slots { IfOk result (λ all. slots.new ≡ slots.old) }
    ensures next { IfOk result (λ all. next.new ≡ next.old + 1 + loops_of tables.now body.now) }
{
    let outside = slots.len();
    enter(name, slot, slots, next)?;
    let all = statements(alloc, tables, body, slots, next)?;
    slots.truncate(outside);
    Ok(all)
}

/// Builds a FOR over a SELECT.
#[cycle(statements)]
fn over_select<'a>(
    alloc: Global,
    tables: &Index<'_, TableNames<'_>>,
    row: &'a Name,
    distinct: bool,
    selection: &Selection<'_>,
    body: &'a [Stmt],
    slots: &mut Scope<'a, NamedSlot>,
    next: &mut usize,
) -> Result<RStmt, NoMemory>
    ensures built { IfOk result (λ r. r ≡ (for_select tables.now row.now distinct selection.now.columns.now selection.now.table.now selection.now.conds.now selection.now.sorts.now (map (built tables.now) body.now)).build slots.old next.old) }
    ensures slots { IfOk result (λ r. slots.new ≡ slots.old) }
    ensures next { IfOk result (λ r. next.new ≡ next.old + (1 + loops_of tables.now body.now)) }
{
    let number = *next;
    let slot = slot_at(alloc, number, &row.text, texts(alloc, selection.columns)?)?;
    let body = body_under(alloc, tables, row, slot, body, slots, next)?;
    select_loop(alloc, tables, slots, number, distinct, selection, body)
}

/// Builds a FOR over a ROWS parameter.
#[cycle(statements)]
fn over_rows<'a>(
    alloc: Global,
    tables: &Index<'_, TableNames<'_>>,
    row: &'a Name,
    rows: &Name,
    body: &'a [Stmt],
    slots: &mut Scope<'a, NamedSlot>,
    next: &mut usize,
) -> Result<RStmt, NoMemory>
    ensures built { IfOk result (λ r. r ≡ (for_rows row.now rows.now (map (built tables.now) body.now)).build slots.old next.old) }
    ensures slots { IfOk result (λ r. slots.new ≡ slots.old) }
    ensures next { IfOk result (λ r. next.new ≡ next.old + (1 + loops_of tables.now body.now)) }
{
    let number = *next;
    let sought = slots.find(&rows.text);
    let parameter = number_in(sought);
    let fields = fields(alloc, sought)?;
    let slot = slot_at(alloc, number, &row.text, fields)?;
    let body = body_under(alloc, tables, row, slot, body, slots, next)?;
    Ok(RStmt::ForRows {
        row: small_number(number),
        rows: parameter,
        body,
    })
}
