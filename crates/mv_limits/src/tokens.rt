//! Limits of single tokens.

ghost use Rattle.std.specs.Prelude.{◌≡◌, ◌++◌};
ghost use Rattle.mv_ast.specs.Texts.{number_from};
ghost use Rattle.mv_ast.specs.Limits.{soonest, own_passes, is_size_of, is_size, size_passes, token_passes};

use crate::best::sooner_when;
use crate::texts::{GREATEST, spelling, unquoted_len, value};
use mv_ast::lexeme::{Lexeme, Terminal};
use mv_ast::limit::{PassedLimit, Which};

/// The most bytes of a name.
const NAME: usize = 64;

/// The most bytes of a text.
const TEXT: usize = 4000;

/// Returns whichever comes first: `best`, or a limit that the token of this kind with these bytes passes.
#[tactic(auto, unfolding(mv_ast::specs::Limits::soonest))]
fn in_token(
    best: Option<PassedLimit>,
    kind: Terminal,
    text: &[u8],
    token: u32,
) -> Option<PassedLimit>
    ensures { result ≡ soonest best (own_passes kind text.now token) }
{
    match kind {
        Terminal::Name => sooner_when(best, text.len() > NAME, Which::Name, token),
        Terminal::Variable => sooner_when(best, text.len() > NAME + 1, Which::Name, token),
        Terminal::Number => sooner_when(best, value(text) > GREATEST, Which::Literal, token),
        Terminal::Quoted => sooner_when(best, unquoted_len(text) > TEXT, Which::Text, token),
        _ => best,
    }
}

/// Whether the tokens are TEXT, `(` and a number.
fn is_size_of(first: Terminal, second: Terminal, third: Terminal) -> bool
    ensures { result ≡ is_size_of first second third }
{
    match (first, second, third) {
        (Terminal::Text, Terminal::Open, Terminal::Number) => true,
        _ => false,
    }
}

/// Whether the digits are a number from 1 to `TEXT`.
fn is_size(digits: &[u8]) -> bool
    ensures { result ≡ is_size (number_from 0 digits.now) }
{
    let size = value(digits);
    0 < size && size <= TEXT as u64
}

/// Returns whichever comes first: `best`, or the limit of n if the tokens begin with TEXT ( n ).
#[tactic(auto, unfolding(mv_ast::specs::Limits::soonest))]
fn in_size(best: Option<PassedLimit>, bytes: &[u8], lexemes: &[Lexeme]) -> Option<PassedLimit>
    ensures { result ≡ soonest best (size_passes bytes.now lexemes.now) }
{
    match lexemes {
        [first, second, third, ..] => {
            let is_passed = is_size_of(first.kind, second.kind, third.kind)
                && !is_size(spelling(bytes, third));
            sooner_when(best, is_passed, Which::Text, third.number)
        }
        _ => best,
    }
}

/// Returns the first of the limits that single tokens pass.
pub(crate) fn in_tokens(bytes: &[u8], lexemes: &[Lexeme]) -> Option<PassedLimit>
    ensures { result ≡ soonest None (token_passes bytes.now lexemes.now) }
{
    let mut best = None;
    for at in 0..lexemes.len() {
        let lexeme = lexemes[at];
        let text = spelling(bytes, &lexeme);
        best = in_token(best, lexeme.kind, text, lexeme.number);
        best = in_size(best, bytes, &lexemes[at..]);
    }
    best
}
