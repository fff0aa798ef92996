//! Prints the parts of statements and of items.

ghost use Rattle.std.specs.Prelude.{◌≡◌, ◌∷◌, [], List as Seq, OnOk};
ghost use Rattle.mv_print.specs.Printing.{Piece, written, name_pieces, literal_pieces, row_pieces, type_pieces, reference_pieces, column_pieces, whole_expr, cond_pieces, conds_pieces, direction_pieces, sort_pieces, sorts_pieces, offset_pieces, agg_pieces, distinct_pieces, set_pieces, name_piece, key};

use crate::expr::{op_word, write_expr};
use crate::listed::{Printed, write_listed, write_separated};
use crate::pieces::{write_key, write_name, write_number, write_value};
use mv_ast::lexeme::Terminal;
use mv_ast::tree::{Agg, ColDef, Cond, Expr, Lit, LitRow, Name, SetItem, Sort};
use mv_values::list::List;
use mv_values::memory::NoMemory;
use mv_values::schema::ColType;

#[tactic(auto, unfolding(crate::specs::Printing::written))]
impl Printed for Name {
    ghost pieces = { name_pieces };

    fn write(&self, text: &mut List<u8>) -> Result<(), NoMemory> {
        write_name(self, text)
    }
}

impl Printed for Lit {
    ghost pieces = { literal_pieces };

    fn write(&self, text: &mut List<u8>) -> Result<(), NoMemory> {
        write_value(&self.value, text)
    }
}

#[tactic(auto, using(crate::proofs::Writing::written_joined), unfolding(crate::specs::Printing::written))]
impl Printed for LitRow {
    ghost pieces = { row_pieces };

    fn write(&self, text: &mut List<u8>) -> Result<(), NoMemory> {
        write_key(Terminal::Open, text)?;
        write_listed(self.values.as_slice(), text)?;
        write_key(Terminal::Close, text)
    }
}

#[tactic(auto, unfolding(crate::specs::Printing::written))]
pub(crate) fn write_type(kind: ColType, text: &mut List<u8>) -> Result<(), NoMemory>
    ensures { OnOk result (text.new ≡ written text.old (type_pieces kind)) }
{
    match kind {
        ColType::Int => write_key(Terminal::Int, text),
        ColType::Text(most) => {
            write_key(Terminal::Text, text)?;
            write_key(Terminal::Open, text)?;
            write_number(u64::from(most), text)?;
            write_key(Terminal::Close, text)
        }
    }
}

/// Adds REFERENCES and the parent table, if there is one.
#[tactic(auto, unfolding(crate::specs::Printing::written))]
fn write_reference(parent: &Option<Name>, text: &mut List<u8>) -> Result<(), NoMemory>
    ensures { OnOk result (text.new ≡ written text.old (reference_pieces parent.now)) }
{
    match parent {
        None => Ok(()),
        Some(table) => {
            write_key(Terminal::References, text)?;
            write_name(table, text)
        }
    }
}

#[tactic(auto, using(crate::proofs::Writing::written_joined), unfolding(crate::specs::Printing::written))]
impl Printed for ColDef {
    ghost pieces = { column_pieces };

    fn write(&self, text: &mut List<u8>) -> Result<(), NoMemory> {
        write_name(&self.name, text)?;
        write_type(self.kind, text)?;
        write_reference(&self.refers, text)
    }
}

impl Printed for Expr {
    ghost pieces = { whole_expr };

    fn write(&self, text: &mut List<u8>) -> Result<(), NoMemory> {
        write_expr(self, 0, text)
    }
}

#[tactic(auto, unfolding(crate::specs::Printing::written))]
impl Printed for Cond {
    ghost pieces = { cond_pieces };

    fn write(&self, text: &mut List<u8>) -> Result<(), NoMemory> {
        write_name(&self.column, text)?;
        write_key(op_word(self.op), text)?;
        write_expr(&self.right, 4, text)
    }
}

/// Adds WHERE and its tests, if there are any.
#[tactic(auto, unfolding(crate::specs::Printing::written))]
pub(crate) fn write_conds(conds: &[Cond], text: &mut List<u8>) -> Result<(), NoMemory>
    ensures { OnOk result (text.new ≡ written text.old (conds_pieces conds.now)) }
{
    let [_, ..] = conds else {
        return Ok(());
    };
    write_key(Terminal::Where, text)?;
    write_separated(Terminal::And, conds, text)
}

#[tactic(auto, unfolding(crate::specs::Printing::written))]
impl Printed for Sort {
    ghost pieces = { sort_pieces };

    fn write(&self, text: &mut List<u8>) -> Result<(), NoMemory> {
        write_name(&self.column, text)?;
        if !self.descending {
            return Ok(());
        }
        write_key(Terminal::Desc, text)
    }
}

/// Adds ORDER BY and its columns, if there are any.
#[tactic(auto, unfolding(crate::specs::Printing::written))]
pub(crate) fn write_sorts(sorts: &[Sort], text: &mut List<u8>) -> Result<(), NoMemory>
    ensures { OnOk result (text.new ≡ written text.old (sorts_pieces sorts.now)) }
{
    let [_, ..] = sorts else {
        return Ok(());
    };
    write_key(Terminal::Order, text)?;
    write_key(Terminal::By, text)?;
    write_listed(sorts, text)
}

/// Adds OFFSET and its expression, if there is one.
#[tactic(auto, unfolding(crate::specs::Printing::written))]
pub(crate) fn write_offset(offset: &Option<Expr>, text: &mut List<u8>) -> Result<(), NoMemory>
    ensures { OnOk result (text.new ≡ written text.old (offset_pieces offset.now)) }
{
    match offset {
        None => Ok(()),
        Some(expr) => {
            write_key(Terminal::Offset, text)?;
            write_expr(expr, 0, text)
        }
    }
}

/// Adds a function and its column in parentheses.
#[tactic(auto, unfolding(crate::specs::Printing::written))]
fn write_of(word: Terminal, column: &Name, text: &mut List<u8>) -> Result<(), NoMemory>
    ensures { OnOk result (text.new ≡ written text.old (key word ∷ key Terminal.Open ∷ name_piece column.now ∷ key Terminal.Close ∷ [])) }
{
    write_key(word, text)?;
    write_key(Terminal::Open, text)?;
    write_name(column, text)?;
    write_key(Terminal::Close, text)
}

#[tactic(auto, unfolding(crate::specs::Printing::written))]
pub(crate) fn write_agg(agg: &Agg, text: &mut List<u8>) -> Result<(), NoMemory>
    ensures { OnOk result (text.new ≡ written text.old (agg_pieces agg.now)) }
{
    match agg {
        Agg::CountAll => {
            write_key(Terminal::Count, text)?;
            write_key(Terminal::Open, text)?;
            write_key(Terminal::Star, text)?;
            write_key(Terminal::Close, text)
        }
        Agg::CountDistinct(column) => {
            write_key(Terminal::Count, text)?;
            write_key(Terminal::Open, text)?;
            write_key(Terminal::Distinct, text)?;
            write_name(column, text)?;
            write_key(Terminal::Close, text)
        }
        Agg::Sum(column) => write_of(Terminal::Sum, column, text),
        Agg::Min(column) => write_of(Terminal::Min, column, text),
        Agg::Max(column) => write_of(Terminal::Max, column, text),
    }
}

/// Adds DISTINCT, if it is set.
#[tactic(auto, unfolding(crate::specs::Printing::written))]
pub(crate) fn write_distinct(distinct: bool, text: &mut List<u8>) -> Result<(), NoMemory>
    ensures { OnOk result (text.new ≡ written text.old (distinct_pieces distinct)) }
{
    if !distinct {
        return Ok(());
    }
    write_key(Terminal::Distinct, text)
}

#[tactic(auto, unfolding(crate::specs::Printing::written))]
impl Printed for SetItem {
    ghost pieces = { set_pieces };

    fn write(&self, text: &mut List<u8>) -> Result<(), NoMemory> {
        write_name(&self.column, text)?;
        write_key(Terminal::Equal, text)?;
        write_expr(&self.right, 0, text)
    }
}
