//! The tokens of a script.

use crate::fault::TextFault;
use mv_lex::lexer::lex;
use mv_lex::token::{Kind, Token};
use mv_values::list::List;
use std::alloc::Global;

/// The most bytes that a script has.
const MOST: usize = 16_777_216;

/// Returns the tokens of a script.
pub(crate) fn tokens_of(alloc: Global, script: &[u8]) -> Result<List<Token>, TextFault> {
    if script.len() > MOST {
        return Err(TextFault::Byte(MOST + 1));
    }
    Ok(lex(alloc, script)?)
}

/// Whether a token is this word, in upper or lower case.
pub(crate) fn is_word(script: &[u8], token: &Token, word: &[u8]) -> bool {
    token.kind == Kind::Word && text_of(script, token).eq_ignore_ascii_case(word)
}

/// Whether a token is this symbol.
pub(crate) fn is_symbol(script: &[u8], token: &Token, symbol: &[u8]) -> bool {
    token.kind == Kind::Symbol && text_of(script, token) == symbol
}

/// Returns the bytes of a token.
pub(crate) fn text_of<'a>(script: &'a [u8], token: &Token) -> &'a [u8] {
    let begin = (token.at as usize).min(script.len());
    let end = end_of(token).min(script.len()).max(begin);
    &script[begin..end]
}

/// Returns the place after a token.
pub(crate) fn end_of(token: &Token) -> usize {
    (token.at as usize).saturating_add(token.len as usize)
}
