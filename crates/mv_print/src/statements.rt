//! Prints statements.

ghost use Rattle.std.specs.Prelude.{◌≡◌, ◌++◌, ◌∷◌, [], map, OnOk};
ghost use Rattle.mv_ast.specs.Limits.{together};
ghost use Rattle.mv_print.specs.Printing.{written, key, line_end, name_piece, variable_piece, name_pieces, variable_pieces, text_piece, listed, whole_expr, set_pieces, agg_pieces, conds_pieces, sorts_pieces, offset_pieces, query_pieces, else_lead, statement_pieces, statements_pieces};

use crate::clauses::{write_agg, write_conds, write_distinct, write_offset, write_sorts};
use crate::expr::write_expr;
use crate::listed::{write_listed, write_variables};
use crate::pieces::{write_end, write_key, write_name, write_text, write_variable};
use mv_ast::lexeme::Terminal;
use mv_ast::tree::{Agg, Cond, Expr, Name, SetItem, Sort, Stmt};
use mv_values::list::List;
use mv_values::memory::NoMemory;

/// Adds SET.
#[tactic(auto, using(crate::proofs::Writing::written_joined), unfolding(crate::specs::Printing::written))]
fn write_assign(to: &Name, right: &Expr, text: &mut List<u8>) -> Result<(), NoMemory>
    ensures { OnOk result (text.new ≡ written text.old (key Terminal.Set ∷ variable_piece to.now ∷ key Terminal.Equal ∷ (whole_expr right.now ++ line_end ∷ []))) }
{
    write_key(Terminal::Set, text)?;
    write_variable(to, text)?;
    write_key(Terminal::Equal, text)?;
    write_expr(right, 0, text)?;
    write_end(text)
}

/// Adds FROM, a table and the tests of WHERE.
#[tactic(auto, unfolding(crate::specs::Printing::written))]
fn write_from(table: &Name, conds: &[Cond], text: &mut List<u8>) -> Result<(), NoMemory>
    ensures { OnOk result (text.new ≡ written text.old (key Terminal.From ∷ name_piece table.now ∷ conds_pieces conds.now)) }
{
    write_key(Terminal::From, text)?;
    write_name(table, text)?;
    write_conds(conds, text)
}

/// Adds SELECT of columns.
#[tactic(auto, using(crate::proofs::Writing::written_joined), unfolding(crate::specs::Printing::written))]
fn write_select(
    columns: &[Name],
    to: &[Name],
    table: &Name,
    conds: &[Cond],
    sorts: &[Sort],
    offset: &Option<Expr>,
    text: &mut List<u8>,
) -> Result<(), NoMemory>
    ensures { OnOk result (text.new ≡ written text.old (key Terminal.Select ∷ (listed name_pieces columns.now ++ key Terminal.Into ∷ (listed variable_pieces to.now ++ key Terminal.From ∷ name_piece table.now
        ∷ (conds_pieces conds.now ++ (sorts_pieces sorts.now ++ (offset_pieces offset.now ++ line_end ∷ []))))))) }
{
    write_key(Terminal::Select, text)?;
    write_listed(columns, text)?;
    write_key(Terminal::Into, text)?;
    write_variables(to, text)?;
    write_from(table, conds, text)?;
    write_sorts(sorts, text)?;
    write_offset(offset, text)?;
    write_end(text)
}

/// Adds SELECT of an aggregate.
#[tactic(auto, using(crate::proofs::Writing::written_joined), unfolding(crate::specs::Printing::written))]
fn write_total(
    agg: &Agg,
    to: &Name,
    table: &Name,
    conds: &[Cond],
    text: &mut List<u8>,
) -> Result<(), NoMemory>
    ensures { OnOk result (text.new ≡ written text.old (key Terminal.Select ∷ (agg_pieces agg.now ++ key Terminal.Into ∷ variable_piece to.now ∷ key Terminal.From ∷ name_piece table.now ∷ (conds_pieces conds.now ++ line_end ∷ [])))) }
{
    write_key(Terminal::Select, text)?;
    write_agg(agg, text)?;
    write_key(Terminal::Into, text)?;
    write_variable(to, text)?;
    write_from(table, conds, text)?;
    write_end(text)
}

/// Adds INSERT.
#[tactic(auto, using(crate::proofs::Writing::written_joined), unfolding(crate::specs::Printing::written))]
fn write_insert(table: &Name, values: &[Expr], text: &mut List<u8>) -> Result<(), NoMemory>
    ensures { OnOk result (text.new ≡ written text.old (key Terminal.Insert ∷ key Terminal.Into ∷ name_piece table.now ∷ key Terminal.Values ∷ key Terminal.Open ∷ (listed whole_expr values.now ++ key Terminal.Close ∷ line_end ∷ []))) }
{
    write_key(Terminal::Insert, text)?;
    write_key(Terminal::Into, text)?;
    write_name(table, text)?;
    write_key(Terminal::Values, text)?;
    write_key(Terminal::Open, text)?;
    write_listed(values, text)?;
    write_key(Terminal::Close, text)?;
    write_end(text)
}

/// Adds UPDATE.
#[tactic(auto, using(crate::proofs::Writing::written_joined), unfolding(crate::specs::Printing::written))]
fn write_update(
    table: &Name,
    items: &[SetItem],
    conds: &[Cond],
    text: &mut List<u8>,
) -> Result<(), NoMemory>
    ensures { OnOk result (text.new ≡ written text.old (key Terminal.Update ∷ name_piece table.now ∷ key Terminal.Set ∷ (listed set_pieces items.now ++ (conds_pieces conds.now ++ line_end ∷ [])))) }
{
    write_key(Terminal::Update, text)?;
    write_name(table, text)?;
    write_key(Terminal::Set, text)?;
    write_listed(items, text)?;
    write_conds(conds, text)?;
    write_end(text)
}

/// Adds DELETE.
#[tactic(auto, using(crate::proofs::Writing::written_joined), unfolding(crate::specs::Printing::written))]
fn write_delete(table: &Name, conds: &[Cond], text: &mut List<u8>) -> Result<(), NoMemory>
    ensures { OnOk result (text.new ≡ written text.old (key Terminal.Delete ∷ key Terminal.From ∷ name_piece table.now ∷ (conds_pieces conds.now ++ line_end ∷ []))) }
{
    write_key(Terminal::Delete, text)?;
    write_from(table, conds, text)?;
    write_end(text)
}

/// Adds PRINT.
#[tactic(auto, using(crate::proofs::Writing::written_joined), unfolding(crate::specs::Printing::written))]
fn write_print(values: &[Expr], text: &mut List<u8>) -> Result<(), NoMemory>
    ensures { OnOk result (text.new ≡ written text.old (key Terminal.Print ∷ (listed whole_expr values.now ++ line_end ∷ []))) }
{
    write_key(Terminal::Print, text)?;
    write_listed(values, text)?;
    write_end(text)
}

/// Adds ROLLBACK.
#[tactic(auto, unfolding(crate::specs::Printing::written))]
fn write_rollback(reason: &[u8], text: &mut List<u8>) -> Result<(), NoMemory>
    ensures { OnOk result (text.new ≡ written text.old (key Terminal.Rollback ∷ text_piece reason.now ∷ line_end ∷ [])) }
{
    write_key(Terminal::Rollback, text)?;
    write_text(reason, text)?;
    write_end(text)
}

/// Adds the start of a loop: FOR, its row, and IN.
#[tactic(auto, unfolding(crate::specs::Printing::written))]
fn write_for(row: &Name, text: &mut List<u8>) -> Result<(), NoMemory>
    ensures { OnOk result (text.new ≡ written text.old (key Terminal.For ∷ variable_piece row.now ∷ key Terminal.In ∷ [])) }
{
    write_key(Terminal::For, text)?;
    write_variable(row, text)?;
    write_key(Terminal::In, text)
}

/// Adds the SELECT of a loop.
#[tactic(auto, using(crate::proofs::Writing::written_joined), unfolding(crate::specs::Printing::written))]
fn write_query(
    distinct: bool,
    columns: &[Name],
    table: &Name,
    conds: &[Cond],
    sorts: &[Sort],
    text: &mut List<u8>,
) -> Result<(), NoMemory>
    ensures { OnOk result (text.new ≡ written text.old (query_pieces distinct columns.now table.now conds.now sorts.now)) }
{
    write_key(Terminal::Select, text)?;
    write_distinct(distinct, text)?;
    write_listed(columns, text)?;
    write_from(table, conds, text)?;
    write_sorts(sorts, text)
}

/// Adds END, a keyword and `;`.
#[tactic(auto, unfolding(crate::specs::Printing::written))]
fn write_end_of(word: Terminal, text: &mut List<u8>) -> Result<(), NoMemory>
    ensures { OnOk result (text.new ≡ written text.old (key Terminal.End ∷ key word ∷ line_end ∷ [])) }
{
    write_key(Terminal::End, text)?;
    write_key(word, text)?;
    write_end(text)
}

/// Adds ELSE, if statements follow.
#[tactic(auto, unfolding(crate::specs::Printing::written))]
fn write_else(no: &[Stmt], text: &mut List<u8>) -> Result<(), NoMemory>
    ensures { OnOk result (text.new ≡ written text.old (else_lead no.now)) }
{
    let [_, ..] = no else {
        return Ok(());
    };
    write_key(Terminal::Else, text)
}

/// Adds statements, one after another.
#[cycle(statements)]
pub(crate) fn write_statements(statements: &[Stmt], text: &mut List<u8>) -> Result<(), NoMemory>
    ensures { OnOk result (text.new ≡ written text.old (statements_pieces statements.now)) }
{
    for statement in statements {
        write_statement(statement, text)?;
    }
    Ok(())
}

/// Adds a statement, nested statements included.
#[cycle(statements)]
#[tactic(auto, using(crate::proofs::Writing::written_joined, crate::proofs::Writing::else_mapped), unfolding(crate::specs::Printing::written))]
fn write_statement(statement: &Stmt, text: &mut List<u8>) -> Result<(), NoMemory>
    ensures { OnOk result (text.new ≡ written text.old (statement_pieces statement.now)) }
{
    match statement {
        Stmt::Assign { to, right, .. } => write_assign(to, right, text),
        Stmt::Select {
            columns,
            to,
            table,
            conds,
            sorts,
            offset,
            ..
        } => write_select(
            columns.as_slice(),
            to.as_slice(),
            table,
            conds.as_slice(),
            sorts.as_slice(),
            offset,
            text,
        ),
        Stmt::Total {
            agg,
            to,
            table,
            conds,
            ..
        } => { write_total(agg, to, table, conds.as_slice(), text) }
        Stmt::ForSelect {
            row,
            distinct,
            columns,
            table,
            conds,
            sorts,
            body,
            ..
        } => {
            write_for(row, text)?;
            write_query(
                *distinct,
                columns.as_slice(),
                table,
                conds.as_slice(),
                sorts.as_slice(),
                text,
            )?;
            write_key(Terminal::Do, text)?;
            write_statements(body.as_slice(), text)?;
            write_end_of(Terminal::For, text)
        }
        Stmt::ForRows {
            row,
            rows,
            body,
            ..
        } => {
            write_for(row, text)?;
            write_variable(rows, text)?;
            write_key(Terminal::Do, text)?;
            write_statements(body.as_slice(), text)?;
            write_end_of(Terminal::For, text)
        }
        Stmt::Branch { test, yes, no, .. } => {
            write_key(Terminal::If, text)?;
            write_expr(test, 0, text)?;
            write_key(Terminal::Then, text)?;
            write_statements(yes.as_slice(), text)?;
            write_else(no.as_slice(), text)?;
            write_statements(no.as_slice(), text)?;
            write_end_of(Terminal::If, text)
        }
        Stmt::Insert { table, values, .. } => write_insert(table, values.as_slice(), text),
        Stmt::Update {
            table,
            items,
            conds,
            ..
        } => { write_update(table, items.as_slice(), conds.as_slice(), text) }
        Stmt::Delete { table, conds, .. } => write_delete(table, conds.as_slice(), text),
        Stmt::Print { values, .. } => write_print(values.as_slice(), text),
        Stmt::Rollback { reason, .. } => write_rollback(reason.as_slice(), text),
    }
}
