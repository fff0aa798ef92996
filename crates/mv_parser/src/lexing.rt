//! Turns tokens into the lexemes that the grammar is defined over.

ghost use Rattle.std.specs.Prelude.{◌≡◌, ◌≤◌, ◌<◌, ◌+◌, ◌^◌, length, IfOk, IsTrue};
ghost use Rattle.std.specs.List.{All, list_all};
ghost use Rattle.mv_lex.specs.Tokens.{IsSpelledIn};
ghost use Rattle.mv_ast.specs.Lexemes.{kind_of, lexeme_of, lexemes};
ghost use Rattle.mv_parser.specs.Fitting.{fits};

use crate::words::{symbol_kind, word_kind};
use mv_ast::lexeme::{Lexeme, Terminal};
use mv_lex::token::{Kind, Token};
use mv_values::list::List;
use mv_values::memory::NoMemory;
use std::alloc::Global;

/// Returns the terminal of a token of this kind with these bytes.
fn kind_in(kind: Kind, text: &[u8]) -> Terminal
    ensures { result ≡ kind_of kind text.now }
{
    match kind {
        Kind::Word => word_kind(text),
        Kind::Number => Terminal::Number,
        Kind::Text => Terminal::Quoted,
        Kind::Variable => Terminal::Variable,
        Kind::Symbol => symbol_kind(text),
        Kind::Block => Terminal::Block,
        Kind::OpenBlock => Terminal::OpenBlock,
    }
}

fn lexeme_in(number: u32, token: Token, bytes: &[u8]) -> Lexeme
    requires within { token.at + token.len ≤ length bytes.now }
    ensures { result ≡ lexeme_of number bytes.now token }
{
    let start = token.at as usize;
    let end = start + token.len as usize;
    Lexeme {
        number,
        kind: kind_in(token.kind, &bytes[start..end]),
        at: token.at,
        len: token.len,
    }
}

/// Returns the lexemes of the tokens, numbered from 1.
pub(crate) fn lexemes_of(
    alloc: Global,
    tokens: &List<Token>,
    bytes: &[u8],
) -> Result<List<Lexeme>, NoMemory>
    requires size { length bytes.now ≤ 2 ^ 24 }
    requires few { length tokens.now ≤ 2 ^ 24 }
    requires spelled { All (IsSpelledIn bytes.now) tokens.now }
    ensures lexemes { IfOk result (λ all. all ≡ lexemes bytes.now tokens.now) }
    ensures fitting { IfOk result (λ all. IsTrue (list_all (fits bytes.now) all)) }
{
    let mut all = List::new(alloc);
    let tokens = tokens.as_slice();
    for i in 0..tokens.len() {
        all.push(lexeme_in(i as u32 + 1, tokens[i], bytes))?;
    }
    Ok(all)
}
