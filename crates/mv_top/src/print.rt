//! The print of the script that bytes spell.

ghost use Rattle.std.specs.Prelude.{IfOk};
ghost use Rattle.mv_ast.specs.declared.tree.Script.{Script as Tree};
ghost use Rattle.mv_accept.specs.Accepting.{Spells};
ghost use Rattle.mv_top.specs.Print.{IsPrint};

use mv_ast::tree::Script;
use mv_lex::lexer::{LexFault, lex};
use mv_parser::fault::ParseFault;
use mv_parser::parse::parse;
use mv_print::print::print_script;
use mv_values::list::List;
use mv_values::memory::NoMemory;
use std::alloc::Global;

/// Returns the print of the script that the bytes spell. Takes time linear in the number of bytes and in the length of
/// the print.
pub(crate) fn print_text(alloc: Global, bytes: &[u8]) -> Result<List<u8>, NoMemory>
    requires spelled { (tree : Tree) × Spells bytes.now tree }
    ensures { IfOk result (IsPrint bytes.now) }
{
    let tree = tree_of(alloc, bytes)?;
    print_script(alloc, &tree, bytes)
}

/// Returns the tree of the script that the bytes spell.
fn tree_of(alloc: Global, bytes: &[u8]) -> Result<Script, NoMemory>
    requires spelled { (tree : Tree) × Spells bytes.now tree }
    ensures { IfOk result (Spells bytes.now) }
{
    let tokens = match lex(alloc, bytes) {
        Ok(tokens) => tokens,
        Err(LexFault::NoMemory) => return Err(NoMemory),
        Err(LexFault::BadByte { .. } | LexFault::BadToken { .. }) => unreachable!(),
    };
    match parse(alloc, &tokens, bytes) {
        Ok(tree) => Ok(tree),
        Err(ParseFault::NoMemory) => Err(NoMemory),
        Err(ParseFault::Syntax { .. } | ParseFault::Limit { .. }) => unreachable!(),
    }
}
