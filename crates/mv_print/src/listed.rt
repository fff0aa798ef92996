//! Prints lists.

ghost use Rattle.std.specs.Prelude.{◌≡◌, ◌∷◌, List as Seq, map, OnOk};
ghost use Rattle.mv_ast.specs.Limits.{together};
ghost use Rattle.mv_print.specs.Printing.{Piece, key, name_pieces, variable_pieces, written, separated, listed};

use crate::pieces::{write_key, write_variable};
use mv_ast::lexeme::Terminal;
use mv_ast::tree::Name;
use mv_values::list::List;
use mv_values::memory::NoMemory;

/// A part of a script that can be printed.
pub(crate) trait Printed {
    ghost pieces: { Self → Seq Piece };

    /// Adds the printed part to the end of a text.
    fn write(&self, text: &mut List<u8>) -> Result<(), NoMemory>
        ensures { OnOk result (text.new ≡ written text.old (pieces self.now)) };
}

/// Adds items, one after another.
pub(crate) fn write_all<T: Printed>(items: &[T], text: &mut List<u8>) -> Result<(), NoMemory>
    ensures { OnOk result (text.new ≡ written text.old (together (map T.pieces items.now))) }
{
    for item in items {
        item.write(text)?;
    }
    Ok(())
}

/// Adds items, each after a mark.
#[tactic(auto, unfolding(crate::specs::Printing::written))]
fn write_more<T: Printed>(mark: Terminal, items: &[T], text: &mut List<u8>) -> Result<(), NoMemory>
    ensures { OnOk result (text.new ≡ written text.old (together (map (λ y. key mark ∷ T.pieces y) items.now))) }
{
    for item in items {
        write_key(mark, text)?;
        item.write(text)?;
    }
    Ok(())
}

/// Adds items, separated by a mark.
#[tactic(auto, using(crate::proofs::Writing::written_joined), unfolding(crate::specs::Printing::written))]
pub(crate) fn write_separated<T: Printed>(
    mark: Terminal,
    items: &[T],
    text: &mut List<u8>,
) -> Result<(), NoMemory>
    ensures { OnOk result (text.new ≡ written text.old (separated mark T.pieces items.now)) }
{
    let [first, rest @ ..] = items else {
        return Ok(());
    };
    first.write(text)?;
    write_more(mark, rest, text)
}

/// Adds items, separated by commas.
pub(crate) fn write_listed<T: Printed>(items: &[T], text: &mut List<u8>) -> Result<(), NoMemory>
    ensures { OnOk result (text.new ≡ written text.old (listed T.pieces items.now)) }
{
    write_separated(Terminal::Comma, items, text)
}

/// Adds variables, each after a comma.
#[tactic(auto, unfolding(crate::specs::Printing::written))]
fn write_more_variables(names: &[Name], text: &mut List<u8>) -> Result<(), NoMemory>
    ensures { OnOk result (text.new ≡ written text.old (together (map (λ y. key Terminal.Comma ∷ variable_pieces y) names.now))) }
{
    for name in names {
        write_key(Terminal::Comma, text)?;
        write_variable(name, text)?;
    }
    Ok(())
}

/// Adds variables, separated by commas.
#[tactic(auto, using(crate::proofs::Writing::written_joined), unfolding(crate::specs::Printing::written))]
pub(crate) fn write_variables(names: &[Name], text: &mut List<u8>) -> Result<(), NoMemory>
    ensures { OnOk result (text.new ≡ written text.old (listed variable_pieces names.now)) }
{
    let [first, rest @ ..] = names else {
        return Ok(());
    };
    write_variable(first, text)?;
    write_more_variables(rest, text)
}
