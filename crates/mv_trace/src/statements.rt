//! The statements of a script, as lines.

use crate::fault::TextFault;
use crate::tokens::{end_of, is_symbol, is_word, text_of, tokens_of};
use mv_lex::token::Token;
use mv_values::list::List;
use mv_values::memory::NoMemory;
use std::alloc::Global;

/// The most bytes of a line that are shown.
const WIDTH: usize = 86;

/// The words with which a statement begins.
const KEYWORDS: [&[u8]; 9] = [
    b"set",
    b"select",
    b"for",
    b"if",
    b"insert",
    b"update",
    b"delete",
    b"print",
    b"rollback",
];

/// A statement of a procedure.
#[derive(Drop)]
pub struct Statement {
    /// How many statements hold it.
    pub depth: usize,
    /// Its text up to its THEN, its DO or its end. An ELSE stands before the first statement after it.
    pub line: List<u8>,
}

/// Returns the statements of all procedures of a script, in the order of the text.
pub fn statements_of(alloc: Global, script: &[u8]) -> Result<List<Statement>, TextFault> {
    let tokens = tokens_of(alloc, script)?;
    let tokens = tokens.as_slice();
    let mut statements = List::new(alloc);
    let mut depth = 0usize;
    for at in 1..tokens.len() {
        let (before, token) = (&tokens[at - 1], &tokens[at]);
        if is_word(script, before, b"end") && holds_others(script, token) {
            depth = depth.saturating_sub(1);
        } else if begins_after(script, before) && is_keyword(script, token) {
            let line = line_of(alloc, script, before, &tokens[at..])?;
            statements.push(Statement { depth, line })?;
            depth = depth.saturating_add(holds_others(script, token) as usize);
        }
    }
    Ok(statements)
}

/// Whether a statement may begin after a token.
fn begins_after(script: &[u8], token: &Token) -> bool {
    is_symbol(script, token, b";")
        || is_word(script, token, b"begin")
        || is_word(script, token, b"then")
        || is_word(script, token, b"else")
        || is_word(script, token, b"do")
}

fn is_keyword(script: &[u8], token: &Token) -> bool {
    KEYWORDS.iter().any(|word| is_word(script, token, word))
}

/// Whether this is the keyword of a statement that holds others.
fn holds_others(script: &[u8], token: &Token) -> bool {
    is_word(script, token, b"for") || is_word(script, token, b"if")
}

/// Whether a statement's line ends with a token.
fn ends_line(script: &[u8], token: &Token) -> bool {
    is_symbol(script, token, b";")
        || is_word(script, token, b"then")
        || is_word(script, token, b"do")
}

/// Returns the line of the statement that begins with the first of these tokens, after another token. One space parts two
/// tokens where the script has something between them.
fn line_of(
    alloc: Global,
    script: &[u8],
    before: &Token,
    tokens: &[Token],
) -> Result<List<u8>, NoMemory> {
    let mut line = List::new(alloc);
    if is_word(script, before, b"else") {
        line.append(b"ELSE ")?;
    }
    let mut end = usize::MAX;
    for token in tokens {
        if token.at as usize > end {
            line.push(b' ')?;
        }
        line.append(text_of(script, token))?;
        end = end_of(token);
        if line.len() > WIDTH {
            line.truncate(WIDTH);
            line.append(b" ..")?;
            return Ok(line);
        }
        if ends_line(script, token) {
            return Ok(line);
        }
    }
    Ok(line)
}
