//! The rows of a table in the order of their keys.

use crate::blocks::{block_of, bytes_of, definition_of, is_word, rows_end, rows_start};
use crate::records::{Inside, field_at, step};
use mv_lex::token::{Kind, Token};
use mv_values::list::List;
use mv_values::memory::NoMemory;
use std::alloc::Global;
use std::collections::BTreeMap;
use std::str;

/// A column of a key: its number, from 1, and whether it has numbers.
#[derive(Clone, Copy)]
struct KeyColumn {
    number: u32,
    is_number: bool,
}

/// The fields of one column of a table, by the keys of their rows. A key is bytes that compare as its values do.
#[derive(Drop)]
struct Fields<'a> {
    alloc: Global,
    script: &'a [u8],
    key: List<KeyColumn>,
    /// The number of the column, from 1.
    column: u32,
    /// Where each field is.
    places: BTreeMap<List<u8>, usize>,
}

/// Returns the place of a field of the row of a table with this number in the order of the keys, from 1. The row is one of
/// VALUES or a record of a copy.
pub(crate) fn field_by_key(
    alloc: Global,
    script: &[u8],
    tokens: &[Token],
    table: &[u8],
    row: u32,
    column: u32,
) -> Result<Option<usize>, NoMemory> {
    let mut fields = Fields {
        alloc,
        script,
        key: List::new(alloc),
        column,
        places: BTreeMap::new(alloc),
    };
    for at in 0..tokens.len() {
        let from = &tokens[at..];
        if let Some(definition) = definition_of(script, from, table) {
            fields.key = key_of(alloc, script, definition)?;
            fields.add_values(definition)?;
        }
        if let Some(block) = block_of(script, from, table) {
            fields.add_block(block)?;
        }
    }
    let mut places = fields.places.values();
    Ok(places.nth((row as usize).saturating_sub(1)).copied())
}

/// Returns the columns of the key of a table.
fn key_of(alloc: Global, script: &[u8], definition: &[Token]) -> Result<List<KeyColumn>, NoMemory> {
    let mut key = List::new(alloc);
    let names = definition
        .iter()
        .skip_while(|token| !is_word(script, token, b"primary"))
        .skip(3)
        .take_while(|token| bytes_of(script, token) != b")".as_slice())
        .filter(|token| token.kind == Kind::Word);
    for name in names {
        if let Some(column) = key_column(script, definition, bytes_of(script, name)) {
            key.push(column)?;
        }
    }
    Ok(key)
}

/// Returns the column of a table that has this name.
fn key_column(script: &[u8], definition: &[Token], name: &[u8]) -> Option<KeyColumn> {
    let mut number = 0u32;
    for column in definition.split(|token| bytes_of(script, token) == b",".as_slice()) {
        number = number.saturating_add(1);
        match column {
            [other, kind, ..] if bytes_of(script, other).eq_ignore_ascii_case(name) => {
                let is_number = is_word(script, kind, b"int");
                return Some(KeyColumn { number, is_number });
            }
            _ => {}
        }
    }
    None
}

impl Fields<'_> {
    /// Adds the rows of the VALUES of a table.
    fn add_values(&mut self, definition: &[Token]) -> Result<(), NoMemory> {
        let script = self.script;
        let Some(rows) = definition
            .split(|token| is_word(script, token, b"values"))
            .nth(1)
        else {
            return Ok(());
        };
        for row in rows
            .split(|token| bytes_of(script, token) == b"(".as_slice())
            .skip(1)
        {
            self.add_literals(row)?;
        }
        Ok(())
    }

    /// Adds a row of literals.
    fn add_literals(&mut self, row: &[Token]) -> Result<(), NoMemory> {
        let mut key = List::new(self.alloc);
        for column in self.key.as_slice() {
            let literal = literal_of(self.script, row, column.number);
            add_literal(self.alloc, &mut key, self.script, literal, column.is_number)?;
        }
        if let Some(token) = literal_of(self.script, row, self.column).first() {
            self.places.insert(key, token.at as usize)?;
        }
        Ok(())
    }

    /// Adds the records of a block.
    fn add_block(&mut self, block: &Token) -> Result<(), NoMemory> {
        let script = self.script;
        let begin = rows_start(script, block);
        let rows = &script[begin..rows_end(script, block).max(begin)];
        let mut inside = Inside::Nothing;
        for (at, byte) in rows.iter().enumerate() {
            let next = step(inside, *byte);
            if inside == Inside::Nothing && next != Inside::Nothing {
                self.add_record(begin.saturating_add(at), &rows[at..])?;
            }
            inside = next;
        }
        Ok(())
    }

    /// Adds a record at a place. Others may follow it.
    fn add_record(&mut self, place: usize, record: &[u8]) -> Result<(), NoMemory> {
        let mut key = List::new(self.alloc);
        for column in self.key.as_slice() {
            let field = field_of(record, column.number);
            add_text(self.alloc, &mut key, field, b'"', column.is_number)?;
        }
        let field = field_at(record, self.column);
        self.places.insert(key, place.saturating_add(field))?;
        Ok(())
    }
}

/// Returns the tokens of the literal of a row with a number, from 1, and those after it up to a comma.
fn literal_of<'a>(script: &[u8], row: &'a [Token], column: u32) -> &'a [Token] {
    let mut literals = row.split(|token| bytes_of(script, token) == b",".as_slice());
    match literals.nth((column as usize).saturating_sub(1)) {
        Some(literal) => literal,
        None => &[],
    }
}

/// Adds a literal to a key.
fn add_literal(
    alloc: Global,
    key: &mut List<u8>,
    script: &[u8],
    literal: &[Token],
    is_number: bool,
) -> Result<(), NoMemory> {
    match literal {
        [sign, digits, ..] if bytes_of(script, sign) == b"-".as_slice() => {
            let number = number_of(bytes_of(script, digits));
            add_number(key, 0i64.saturating_sub(number))
        }
        [token, ..] => add_text(alloc, key, bytes_of(script, token), b'\'', is_number),
        [] => Ok(()),
    }
}

/// Returns the field of a record with a number, from 1.
fn field_of(record: &[u8], column: u32) -> &[u8] {
    let field = &record[field_at(record, column)..];
    match &field[..field_at(field, 2)] {
        [text @ .., b','] => text,
        text => text,
    }
}

/// Returns what a text in quotes stands for, or the text itself if it isn't in quotes.
fn unquoted(alloc: Global, text: &[u8], quote: u8) -> Result<List<u8>, NoMemory> {
    let mut plain = List::new(alloc);
    let [first, inner @ ..] = text else {
        return Ok(plain);
    };
    if *first != quote {
        plain.append(text)?;
        return Ok(plain);
    }
    let mut is_doubled = false;
    for byte in inner {
        let is_quote = *byte == quote;
        if !is_quote || is_doubled {
            plain.push(*byte)?;
        }
        is_doubled = is_quote && !is_doubled;
    }
    Ok(plain)
}

/// Adds to a key the value that a text stands for, which may be in quotes.
fn add_text(
    alloc: Global,
    key: &mut List<u8>,
    text: &[u8],
    quote: u8,
    is_number: bool,
) -> Result<(), NoMemory> {
    let plain = unquoted(alloc, text, quote)?;
    if is_number {
        return add_number(key, number_of(plain.as_slice()));
    }
    // No text has a byte 0. So a text comes before those that it begins.
    key.append(plain.as_slice())?;
    key.push(0)
}

/// Adds a number to a key. The first bit is changed, since a number below 0 has it set.
fn add_number(key: &mut List<u8>, number: i64) -> Result<(), NoMemory> {
    let bytes = number.to_be_bytes();
    key.push(bytes[0] ^ 128)?;
    key.append(&bytes[1..])
}

/// Returns the number that digits spell, perhaps after a `-`, or 0 if they don't spell one.
fn number_of(text: &[u8]) -> i64 {
    match str::from_utf8(text) {
        Ok(digits) => digits.parse::<i64>().unwrap_or(0),
        Err(_) => 0,
    }
}
