//! Where rows are in a script.

ghost use Rattle.std.specs.Prelude.{◌≤◌, length};

use crate::place::first_line;
use mv_lex::token::{Kind, Token};

/// Returns the bytes of a token, or none if it isn't in the script.
pub(crate) fn bytes_of<'a>(script: &'a [u8], token: &Token) -> &'a [u8] {
    let from = (token.at as usize).min(script.len());
    let after = &script[from..];
    &after[..(token.len as usize).min(after.len())]
}

pub(crate) fn is_word(script: &[u8], token: &Token, word: &[u8]) -> bool {
    token.kind == Kind::Word && bytes_of(script, token).eq_ignore_ascii_case(word)
}

/// Returns the block of a copy of this table, if these tokens start with such a copy.
pub(crate) fn block_of<'a>(script: &[u8], tokens: &'a [Token], table: &[u8]) -> Option<&'a Token> {
    match tokens {
        [copy, name, block, ..] if is_word(script, copy, b"copy") && is_word(script, name, table) =>
            match block.kind {
                Kind::Block | Kind::OpenBlock => Some(block),
                _ => None,
            },
        _ => None,
    }
}

/// Returns the place where the rows of a block start: after the line of its `<<`.
pub(crate) fn rows_start(script: &[u8], block: &Token) -> usize
    ensures { result ≤ length script.now }
{
    let line = first_line(bytes_of(script, block));
    ((block.at as usize).min(script.len()) + line.len() + 1).min(script.len())
}

/// Returns the place after the rows of a block: where the line of its `>>` begins, or its end if it is open.
pub(crate) fn rows_end(script: &[u8], block: &Token) -> usize
    ensures { result ≤ length script.now }
{
    let text = bytes_of(script, block);
    let len = match block.kind {
        Kind::Block => text.trim_ascii_end().len().saturating_sub(2),
        _ => text.len(),
    };
    (block.at as usize).saturating_add(len).min(script.len())
}

/// Returns the block of the journal, if there is one.
pub(crate) fn journal_of<'a>(script: &[u8], tokens: &'a [Token]) -> Option<&'a Token> {
    tokens
        .iter()
        .skip_while(|token| !is_word(script, token, b"journal"))
        .nth(1)
}

/// Returns the CALL with a number, from 0.
pub(crate) fn call_of<'a>(script: &[u8], tokens: &'a [Token], number: u32) -> Option<&'a Token> {
    tokens
        .iter()
        .filter(|token| is_word(script, token, b"call"))
        .nth(number as usize)
}

/// Returns the tokens of a table after the bracket of its columns, if these tokens start with its CREATE TABLE.
pub(crate) fn definition_of<'a>(
    script: &[u8],
    tokens: &'a [Token],
    table: &[u8],
) -> Option<&'a [Token]> {
    match tokens {
        [create, word, name, _, rest @ ..]
            if is_word(script, create, b"create")
                && is_word(script, word, b"table")
                && is_word(script, name, table) => rest
            .split(|token| bytes_of(script, token) == b";".as_slice())
            .next(),
        _ => None,
    }
}

/// Returns the name of a column of this table, if these tokens start with its CREATE TABLE. Columns count from 1.
pub(crate) fn column_name<'a>(
    script: &[u8],
    tokens: &'a [Token],
    table: &[u8],
    column: u32,
) -> Option<&'a Token> {
    definition_of(script, tokens, table)?
        .split(|token| bytes_of(script, token) == b",".as_slice())
        .nth((column as usize).saturating_sub(1))?
        .first()
}

/// Returns the bracket before a row of the VALUES of this table, if these tokens start with its CREATE TABLE. Rows
/// count from 1.
pub(crate) fn values_row<'a>(
    script: &[u8],
    tokens: &'a [Token],
    table: &[u8],
    row: u32,
) -> Option<&'a Token> {
    definition_of(script, tokens, table)?
        .iter()
        .skip_while(|token| !is_word(script, token, b"values"))
        .filter(|token| bytes_of(script, token) == b"(".as_slice())
        .nth((row as usize).saturating_sub(1))
}
