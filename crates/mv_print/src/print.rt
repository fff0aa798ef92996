//! The entry point of the printer.

ghost use Rattle.std.specs.Prelude.{◌≡◌, List as Seq, IfOk};
ghost use Rattle.mv_lex.specs.declared.token.Token.{Token};
ghost use Rattle.mv_lex.specs.Tokens.{AreTokens};
ghost use Rattle.mv_ast.specs.Lexemes.{IsScript};
ghost use Rattle.mv_print.specs.Back.{ReadsBack};
ghost use Rattle.mv_print.specs.Printing.{printed};

use crate::items::write_items;
use mv_ast::tree::Script;
use mv_values::list::List;
use mv_values::memory::NoMemory;
use std::alloc::Global;

/// Returns the text of a script. The bytes are those that the script was parsed from; its blocks are
/// copied from them. Keywords and names are in lower case. One space separates two tokens, and each
/// statement and each item ends its line. Parentheses are printed only where the grammar needs them.
/// Takes time linear in the length of the text.
///
/// # Errors
/// `NoMemory` if memory runs out.
pub fn print_script(alloc: Global, script: &Script, bytes: &[u8]) -> Result<List<u8>, NoMemory>
    // The text is the pieces of the script, one after another.
    ensures text { IfOk result (λ text. text ≡ printed bytes.now script.now) }
    // If the script was parsed from these bytes, the text parses as the same script, except for positions.
    ensures read_back { (tokens : Seq Token) → AreTokens bytes.now tokens → IsScript bytes.now tokens script.now → IfOk result (λ text. ReadsBack bytes.now script.now text) }
{
    write_script(alloc, script, bytes)
}

/// Returns the pieces of the script as text.
fn write_script(alloc: Global, script: &Script, bytes: &[u8]) -> Result<List<u8>, NoMemory>
    ensures { IfOk result (λ text. text ≡ printed bytes.now script.now) }
{
    let mut text = List::new(alloc);
    write_items(script.items.as_slice(), bytes, &mut text)?;
    Ok(text)
}
