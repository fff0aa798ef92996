//! Prints the items of a script.

ghost use Rattle.std.specs.Prelude.{◌≡◌, ◌++◌, ◌∷◌, [], map, slice_range, ◌+◌, OnOk};
ghost use Rattle.mv_ast.specs.Limits.{together};
ghost use Rattle.mv_print.specs.Printing.{written, put, column_and_comma, values_pieces, table_pieces, param_kind_pieces, param_pieces, declared_pieces, read_only_pieces, procedure_pieces, span_piece, arg_pieces, item_pieces, pieces_of};

use crate::clauses::write_type;
use crate::listed::{Printed, write_all, write_listed};
use crate::pieces::{write_block, write_end, write_key, write_name, write_value, write_variable};
use crate::statements::write_statements;
use mv_ast::lexeme::Terminal;
use mv_ast::tree::{
    Arg, CallDef, ColDef, Item, ItemKind, LitRow, Param, ParamKind, ProcDef, Span, TableDef, VarDef,
};
use mv_values::list::List;
use mv_values::memory::NoMemory;

/// Adds columns, each followed by a comma.
#[tactic(auto, using(crate::proofs::Writing::written_joined), unfolding(crate::specs::Printing::written))]
fn write_columns(columns: &[ColDef], text: &mut List<u8>) -> Result<(), NoMemory>
    ensures { OnOk result (text.new ≡ written text.old (together (map column_and_comma columns.now))) }
{
    for column in columns {
        column.write(text)?;
        write_key(Terminal::Comma, text)?;
    }
    Ok(())
}

/// Adds VALUES and its rows, if there are any.
#[tactic(auto, unfolding(crate::specs::Printing::written))]
fn write_values(rows: &[LitRow], text: &mut List<u8>) -> Result<(), NoMemory>
    ensures { OnOk result (text.new ≡ written text.old (values_pieces rows.now)) }
{
    let [_, ..] = rows else {
        return Ok(());
    };
    write_key(Terminal::Values, text)?;
    write_listed(rows, text)
}

#[tactic(auto, using(crate::proofs::Writing::written_joined), unfolding(crate::specs::Printing::written))]
fn write_table(table: &TableDef, text: &mut List<u8>) -> Result<(), NoMemory>
    ensures { OnOk result (text.new ≡ written text.old (table_pieces table.now)) }
{
    write_key(Terminal::Create, text)?;
    write_key(Terminal::Table, text)?;
    write_name(&table.name, text)?;
    write_key(Terminal::Open, text)?;
    write_columns(table.columns.as_slice(), text)?;
    write_key(Terminal::Primary, text)?;
    write_key(Terminal::Key, text)?;
    write_key(Terminal::Open, text)?;
    write_listed(table.key.as_slice(), text)?;
    write_key(Terminal::Close, text)?;
    write_key(Terminal::Close, text)?;
    write_values(table.rows.as_slice(), text)?;
    write_end(text)
}

#[tactic(auto, using(crate::proofs::Writing::written_joined), unfolding(crate::specs::Printing::written))]
fn write_param_kind(kind: &ParamKind, text: &mut List<u8>) -> Result<(), NoMemory>
    ensures { OnOk result (text.new ≡ written text.old (param_kind_pieces kind.now)) }
{
    match kind {
        ParamKind::One(one) => write_type(*one, text),
        ParamKind::Many(columns) => {
            write_key(Terminal::Rows, text)?;
            write_key(Terminal::Open, text)?;
            write_listed(columns.as_slice(), text)?;
            write_key(Terminal::Close, text)
        }
    }
}

#[tactic(auto, unfolding(crate::specs::Printing::written))]
impl Printed for Param {
    ghost pieces = { param_pieces };

    fn write(&self, text: &mut List<u8>) -> Result<(), NoMemory> {
        write_variable(&self.name, text)?;
        write_param_kind(&self.kind, text)
    }
}

#[tactic(auto, using(crate::proofs::Writing::written_joined), unfolding(crate::specs::Printing::written))]
impl Printed for VarDef {
    ghost pieces = { declared_pieces };

    fn write(&self, text: &mut List<u8>) -> Result<(), NoMemory> {
        write_key(Terminal::Declare, text)?;
        write_variable(&self.name, text)?;
        write_key(Terminal::Equal, text)?;
        write_value(&self.initial.value, text)?;
        write_key(Terminal::Semicolon, text)
    }
}

#[tactic(auto, unfolding(crate::specs::Printing::written))]
fn write_read_only(read_only: bool, text: &mut List<u8>) -> Result<(), NoMemory>
    ensures { OnOk result (text.new ≡ written text.old (read_only_pieces read_only)) }
{
    if read_only {
        write_key(Terminal::Read, text)?;
        write_key(Terminal::Only, text)?;
    }
    Ok(())
}

#[tactic(auto, using(crate::proofs::Writing::written_joined), unfolding(crate::specs::Printing::written))]
fn write_procedure(procedure: &ProcDef, text: &mut List<u8>) -> Result<(), NoMemory>
    ensures { OnOk result (text.new ≡ written text.old (procedure_pieces procedure.now)) }
{
    write_key(Terminal::Create, text)?;
    write_key(Terminal::Procedure, text)?;
    write_name(&procedure.name, text)?;
    write_key(Terminal::Open, text)?;
    write_listed(procedure.params.as_slice(), text)?;
    write_key(Terminal::Close, text)?;
    write_read_only(procedure.read_only, text)?;
    write_all(procedure.vars.as_slice(), text)?;
    write_key(Terminal::Begin, text)?;
    write_statements(procedure.body.as_slice(), text)?;
    write_key(Terminal::End, text)?;
    write_end(text)
}

/// Returns the bytes of a block, cut off at the end of the input.
fn content<'a>(bytes: &'a [u8], span: Span) -> &'a [u8]
    ensures { result.now ≡ slice_range bytes.now span.at (span.at + span.len) }
{
    let start = (span.at as usize).min(bytes.len());
    let end = (span.at as usize + span.len as usize).min(bytes.len());
    &bytes[start..end]
}

fn write_span(span: Span, bytes: &[u8], text: &mut List<u8>) -> Result<(), NoMemory>
    ensures { OnOk result (text.new ≡ put text.old (span_piece bytes.now span)) }
{
    write_block(content(bytes, span), span.closed, text)
}

#[tactic(auto, using(crate::proofs::Writing::written_joined), unfolding(crate::specs::Printing::written))]
impl Printed for Arg {
    ghost pieces = { arg_pieces };

    fn write(&self, text: &mut List<u8>) -> Result<(), NoMemory> {
        match self {
            Arg::One(literal) => write_value(&literal.value, text),
            Arg::Many(rows) => {
                write_key(Terminal::Rows, text)?;
                write_key(Terminal::Open, text)?;
                write_listed(rows.rows.as_slice(), text)?;
                write_key(Terminal::Close, text)
            }
        }
    }
}

#[tactic(auto, using(crate::proofs::Writing::written_joined), unfolding(crate::specs::Printing::written))]
fn write_call(call: &CallDef, bytes: &[u8], text: &mut List<u8>) -> Result<(), NoMemory>
    ensures { OnOk result (text.new ≡ written text.old (item_pieces bytes.now (ItemKind.Call call.now))) }
{
    write_key(Terminal::Call, text)?;
    write_name(&call.name, text)?;
    write_key(Terminal::Open, text)?;
    write_listed(call.arguments.as_slice(), text)?;
    write_key(Terminal::Close, text)?;
    write_end(text)
}

#[tactic(auto, unfolding(crate::specs::Printing::written))]
fn write_item(item: &Item, bytes: &[u8], text: &mut List<u8>) -> Result<(), NoMemory>
    ensures { OnOk result (text.new ≡ written text.old (pieces_of bytes.now item.now)) }
{
    match &item.kind {
        ItemKind::Table(table) => write_table(table, text),
        ItemKind::Proc(procedure) => write_procedure(procedure, text),
        ItemKind::Copy(copy) => {
            write_key(Terminal::Copy, text)?;
            write_name(&copy.table, text)?;
            write_span(copy.block, bytes, text)
        }
        ItemKind::Call(call) => write_call(call, bytes, text),
        ItemKind::Journal(span) => {
            write_key(Terminal::Journal, text)?;
            write_span(*span, bytes, text)
        }
    }
}

/// Adds items, one after another.
pub(crate) fn write_items(items: &[Item], bytes: &[u8], text: &mut List<u8>) -> Result<(), NoMemory>
    ensures { OnOk result (text.new ≡ written text.old (together (map (pieces_of bytes.now) items.now))) }
{
    for item in items {
        write_item(item, bytes, text)?;
    }
    Ok(())
}
