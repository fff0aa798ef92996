//! What a token is by the grammar, and what may stand in its place.

use crate::blocks::bytes_of;
use crate::grammar::{COMPARISONS, GRAMMAR, ITEMS, KEYWORDS, OPERATORS};
use mv_lex::token::{Kind, Token};
use mv_values::list::List;
use mv_values::memory::NoMemory;
use std::alloc::Global;

/// The most parts that are opened before one token.
const OPENED: u32 = 64;

/// What a token is: a symbol in an alternative of a part.
#[derive(Clone, Copy)]
pub(crate) struct Role {
    pub(crate) part: &'static str,
    pub(crate) symbol: &'static str,
}

/// What is left of an alternative of a part.
#[derive(Clone, Copy)]
struct Rest {
    part: &'static str,
    symbols: &'static str,
}

/// A reader of one item, token by token.
#[derive(Drop)]
pub(crate) struct Reader<'a> {
    script: &'a [u8],
    open: List<Rest>,
    /// What may stand in place of the last token.
    wanted: List<&'static str>,
}

impl<'a> Reader<'a> {
    /// Returns a reader that has read the tokens before a place, from the item that holds it. `None` if the grammar
    /// doesn't go on with one of them.
    pub(crate) fn before(
        alloc: Global,
        script: &'a [u8],
        tokens: &[Token],
        place: usize,
    ) -> Result<Option<Reader<'a>>, NoMemory> {
        let mut reader = Reader {
            script,
            open: List::new(alloc),
            wanted: List::new(alloc),
        };
        reader.leave("script", "script")?;
        let before = &tokens[..place.min(tokens.len())];
        for token in before.iter().skip(item_start(script, before)) {
            if reader.read(Some(token))?.is_none() {
                return Ok(None);
            }
        }
        Ok(Some(reader))
    }

    /// Reads a token, or the end of the script, and returns what it is. `None` if the grammar doesn't go on with it.
    pub(crate) fn read(&mut self, token: Option<&Token>) -> Result<Option<Role>, NoMemory> {
        self.wanted.truncate(0);
        for _ in 0..OPENED {
            let Some(Rest { part, symbols }) = self.open.pop() else {
                self.want("the end")?;
                return Ok(None);
            };
            let (symbol, after) = first_of(symbols);
            self.leave(part, after)?;
            match rules_of(symbol) {
                Some((label, rules)) => match self.chosen(label, rules, token)? {
                    Some(chosen) => self.leave(symbol, chosen)?,
                    None => return Ok(None),
                },
                None if fits(self.script, symbol, token) => return Ok(Some(Role { part, symbol })),
                None => {
                    self.want(word_of(symbol))?;
                    return Ok(None);
                }
            }
        }
        Ok(None)
    }

    /// Returns what may stand in place of the last token, if that didn't fit.
    pub(crate) fn wanted(&self) -> &[&'static str] {
        self.wanted.as_slice()
    }

    /// Returns the alternative of a part that a token chooses.
    fn chosen(
        &mut self,
        label: &'static str,
        rules: &'static [&'static str],
        token: Option<&Token>,
    ) -> Result<Option<&'static str>, NoMemory> {
        if !label.is_empty() {
            self.want(label)?;
        }
        for symbols in rules {
            let (symbol, _) = first_of(symbols);
            if symbol.is_empty() || rules_of(symbol).is_some() || fits(self.script, symbol, token) {
                return Ok(Some(*symbols));
            }
            if label.is_empty() {
                self.want(word_of(symbol))?;
            }
        }
        Ok(None)
    }

    fn leave(&mut self, part: &'static str, symbols: &'static str) -> Result<(), NoMemory> {
        if symbols.is_empty() {
            return Ok(());
        }
        self.open.push(Rest { part, symbols })
    }

    fn want(&mut self, word: &'static str) -> Result<(), NoMemory> {
        if self.wanted.as_slice().iter().any(|other| *other == word) {
            return Ok(());
        }
        self.wanted.push(word)
    }
}

/// Returns what the token at a place is, if the tokens up to it begin an item.
pub(crate) fn role_of(
    alloc: Global,
    script: &[u8],
    tokens: &[Token],
    place: usize,
) -> Result<Option<Role>, NoMemory> {
    match Reader::before(alloc, script, tokens, place)? {
        Some(mut reader) => reader.read(tokens.get(place)),
        None => Ok(None),
    }
}

/// Returns the place of the last of these tokens that begins an item.
pub(crate) fn item_start(script: &[u8], tokens: &[Token]) -> usize {
    tokens
        .iter()
        .rposition(|token| token.kind == Kind::Word && is_in(ITEMS, bytes_of(script, token)))
        .unwrap_or(0)
}

/// Returns the first symbol of an alternative, and the others.
fn first_of(symbols: &'static str) -> (&'static str, &'static str) {
    match symbols.split_once(' ') {
        Some(halves) => halves,
        None => (symbols, ""),
    }
}

/// Returns the label and the alternatives of a part, if a symbol is one.
fn rules_of(symbol: &str) -> Option<(&'static str, &'static [&'static str])> {
    for (part, label, rules) in GRAMMAR {
        if *part == symbol {
            return Some((*label, *rules));
        }
    }
    None
}

/// Returns how a symbol is called where it is told what may go on.
fn word_of(symbol: &'static str) -> &'static str {
    match symbol {
        "table" | "parent" => "a table",
        "procedure" => "a procedure",
        "column" | "field" | "bare" => "a column",
        "new" | "target" | "read" | "looped" => "a variable",
        "number" => "a number",
        "text" => "a text",
        "block" => "a block",
        "operator" => "an operator",
        "comparison" => "a comparison",
        word => word,
    }
}

/// Whether a token can stand for a symbol that is no part.
fn fits(script: &[u8], symbol: &str, token: Option<&Token>) -> bool {
    let Some(token) = token else {
        return false;
    };
    let text = bytes_of(script, token);
    match symbol {
        "table" | "parent" | "procedure" | "column" | "field" | "bare" => token.kind == Kind::Word
            && !is_keyword(text),
        "new" | "target" | "read" | "looped" => token.kind == Kind::Variable,
        "number" => token.kind == Kind::Number,
        "text" => token.kind == Kind::Text,
        "block" => token.kind == Kind::Block || token.kind == Kind::OpenBlock,
        "operator" => is_in(OPERATORS, text),
        "comparison" => is_in(COMPARISONS, text),
        word => is_in(word, text),
    }
}

/// Whether a text is one of these words, in any letter case.
pub(crate) fn is_in(words: &str, text: &[u8]) -> bool {
    words
        .split(' ')
        .any(|word| word.as_bytes().eq_ignore_ascii_case(text))
}

pub(crate) fn is_keyword(text: &[u8]) -> bool {
    KEYWORDS.iter().any(|words| is_in(words, text))
}
