//! The places that a refusal names, as text.

ghost use Rattle.std.specs.Prelude.{◌≡◌, [], IsFalse, IfOk};
ghost use Rattle.mv_where.specs.Refusal.{is_refusal};

use crate::blocks::{block_of, call_of, column_name, journal_of, rows_end, rows_start, values_row};
use crate::causes::with_statements;
use crate::head::script_in;
use crate::ordered::field_by_key;
use crate::outline::Outline;
use crate::place::{column, first_line, line_around, line_number};
use crate::records::{field_at, record_at};
use crate::refusal::{Target, is_refusal, number_in, refusal_in};
use crate::verdict::{line_start, report_start, sentence};
use itoa::Buffer;
use mv_lex::lexer::{LexFault, lex};
use mv_lex::token::{Kind, Token};
use mv_values::list::List;
use mv_values::memory::NoMemory;
use std::alloc::Global;
use std::str;

/// The most bytes that a script has.
const MOST: usize = 16_777_216;

/// The most bytes of a line that are shown on each side of a place.
const AROUND: usize = 200;

/// The most lines of a block that are noted.
const NOTED: u32 = 5;

/// Returns the places in a script that the refusal in a text names, each with its line and a caret, and what the refusal
/// means there. Returns an empty text if the text isn't a refusal or names no place. `name` is the name of the file, which
/// has the script alone or in an input of `audit`.
pub fn answer(alloc: Global, name: &[u8], file: &[u8], text: &[u8]) -> Result<List<u8>, NoMemory>
    ensures { IsFalse (is_refusal text.now) → IfOk result (λ places. places ≡ []) }
{
    if !is_refusal(text) {
        return Ok(List::new(alloc));
    }
    let (script, before) = script_in(file);
    let tokens = tokens_of(alloc, script)?;
    let mut places = Places {
        alloc,
        name,
        script,
        before,
        tokens: tokens.as_slice(),
        text: List::new(alloc),
    };
    if let Ok(line) = str::from_utf8(first_line(text)) {
        places.tell(line)?;
    }
    Ok(places.text)
}

/// Returns the line of a report with a number, from 1, and what is said of it. The file has the report alone or in an
/// input of `audit`.
pub fn line_at<'a>(
    alloc: Global,
    name: &'a [u8],
    file: &'a [u8],
    number: u32,
) -> Result<List<u8>, NoMemory> {
    let start = report_start(file);
    let report = &file[start..];
    let at = line_start(report, number);
    let mut places = Places {
        alloc,
        name,
        script: file,
        before: 0,
        tokens: &[],
        text: List::new(alloc),
    };
    places.show(start.saturating_add(at))?;
    places.add_line(sentence(report, at))?;
    Ok(places.text)
}

/// Returns a text of `why` with the statements of a script that its paths lead to.
pub fn causes_in<'a>(
    alloc: Global,
    name: &'a [u8],
    file: &'a [u8],
    text: &[u8],
) -> Result<List<u8>, NoMemory> {
    let (script, before) = script_in(file);
    let tokens = tokens_of(alloc, script)?;
    let outline = Outline::of(alloc, script, tokens.as_slice())?;
    with_statements(alloc, name, script, before, outline, text)
}

/// Returns the tokens of a script, or none if it isn't one.
fn tokens_of(alloc: Global, script: &[u8]) -> Result<List<Token>, NoMemory> {
    if script.len() > MOST {
        return Ok(List::new(alloc));
    }
    match lex(alloc, script) {
        Ok(tokens) => Ok(tokens),
        Err(LexFault::NoMemory) => Err(NoMemory),
        Err(_) => Ok(List::new(alloc)),
    }
}

/// A script, and the text of places in it.
#[derive(Drop)]
pub(crate) struct Places<'a> {
    pub(crate) alloc: Global,
    name: &'a [u8],
    pub(crate) script: &'a [u8],
    /// How many lines of the file are before the script.
    before: usize,
    pub(crate) tokens: &'a [Token],
    pub(crate) text: List<u8>,
}

impl Places<'_> {
    /// Adds the places that the line of a refusal names, and what it means.
    fn tell(&mut self, line: &str) -> Result<(), NoMemory> {
        let Some(refusal) = refusal_in(line) else {
            return Ok(());
        };
        match refusal.target {
            Target::All if self.script.len() > MOST => return self.say(refusal),
            Target::All => {}
            Target::Head => return self.say(refusal),
            Target::Byte(at) => self.show(at as usize)?,
            Target::Token(number) => self.show_token(number)?,
            Target::Row { table, row, column } => self.show_row(table.as_bytes(), row, column)?,
            Target::Orphan { table, row, column } => self.show_orphan(
                table.as_bytes(),
                row,
                column,
            )?,
            Target::OpenBlock => self.show_open_block()?,
            Target::Line(number) => self.show_event(
                number,
                refusal.number == 17 || refusal.number == 18,
            )?,
            Target::Call(number) => self.show_call(number)?,
        }
        if self.text.as_slice().is_empty() {
            return Ok(());
        }
        self.say(refusal)
    }

    /// Shows the token with this number, or the end of the script if the number is past the last token.
    fn show_token(&mut self, number: u32) -> Result<(), NoMemory> {
        match self.tokens.get((number as usize).saturating_sub(1)) {
            Some(token) => self.show(token.at as usize),
            None => self.show(match self.tokens.last() {
                Some(token) => (token.at as usize).saturating_add(token.len as usize),
                None => self.script.len(),
            }),
        }
    }

    /// Shows the row with this number of the VALUES and of each copy of a table.
    fn show_row(&mut self, table: &[u8], row: u32, column: u32) -> Result<(), NoMemory> {
        let (script, tokens) = (self.script, self.tokens);
        for at in 0..tokens.len() {
            let from = &tokens[at..];
            if let Some(bracket) = values_row(script, from, table, row) {
                self.show(bracket.at as usize)?;
            }
            if let Some(block) = block_of(script, from, table) {
                let begin = rows_start(script, block);
                let rows = &script[begin..rows_end(script, block).max(begin)];
                if let Some(place) = record_at(rows, row) {
                    let field = field_at(&rows[place..], column);
                    self.show(begin.saturating_add(place).saturating_add(field))?;
                    self.note_lines(block)?;
                }
            }
        }
        Ok(())
    }

    /// Shows the column with this number of a table.
    fn show_column(&mut self, table: &[u8], column: u32) -> Result<(), NoMemory> {
        let (script, tokens) = (self.script, self.tokens);
        for at in 0..tokens.len() {
            if let Some(name) = column_name(script, &tokens[at..], table, column) {
                self.show(name.at as usize)?;
            }
        }
        Ok(())
    }

    /// Shows a column of a table, and its field in the row with this number in the order of the keys.
    fn show_orphan(&mut self, table: &[u8], row: u32, column: u32) -> Result<(), NoMemory> {
        self.show_column(table, column)?;
        match field_by_key(self.alloc, self.script, self.tokens, table, row, column)? {
            Some(at) => self.show(at),
            None => Ok(()),
        }
    }

    fn show_open_block(&mut self) -> Result<(), NoMemory> {
        match self.tokens.last() {
            Some(block) if block.kind == Kind::OpenBlock => {
                self.show(block.at as usize)?;
                self.note_lines(block)
            }
            _ => Ok(()),
        }
    }

    /// Shows a line of the journal, and the CALL that it names if that is asked for.
    fn show_event(&mut self, number: u32, with_call: bool) -> Result<(), NoMemory> {
        let script = self.script;
        let Some(block) = journal_of(script, self.tokens) else {
            return Ok(());
        };
        let mut at = rows_start(script, block);
        let lines = &script[at..rows_end(script, block).max(at)];
        for (index, line) in lines.split(|byte| *byte == b'\n').enumerate() {
            if index == (number as usize).saturating_sub(1) {
                self.show(at)?;
                if with_call {
                    self.show_call_of(line)?;
                }
                return Ok(());
            }
            at = at.saturating_add(line.len()).saturating_add(1);
        }
        Ok(())
    }

    /// Shows the CALL of an event.
    fn show_call_of(&mut self, event: &[u8]) -> Result<(), NoMemory> {
        let Ok(line) = str::from_utf8(event.trim_ascii()) else {
            return Ok(());
        };
        match line.split_once(' ') {
            Some((_, digits)) => match number_in(digits) {
                Some(number) => self.show_call(number),
                None => Ok(()),
            },
            None => Ok(()),
        }
    }

    fn show_call(&mut self, number: u32) -> Result<(), NoMemory> {
        match call_of(self.script, self.tokens, number) {
            Some(call) => self.show(call.at as usize),
            None => Ok(()),
        }
    }

    /// Notes the lines of a block that look like the start of an item, or like an end with something beside it.
    fn note_lines(&mut self, block: &Token) -> Result<(), NoMemory> {
        let script = self.script;
        let mut at = rows_start(script, block);
        let lines = &script[at..rows_end(script, block).max(at)];
        let mut noted = 0u32;
        for line in lines.split(|byte| *byte == b'\n') {
            if noted < NOTED && (looks_like_item(line) || looks_like_end(line)) {
                self.note(at, block.at as usize)?;
                noted += 1;
            }
            at = at.saturating_add(line.len()).saturating_add(1);
        }
        Ok(())
    }

    /// Returns the line number in the file of a place, or that of the last line if the place is past the end.
    pub(crate) fn line_of(&self, at: usize) -> usize {
        line_number(self.script, at.min(self.script.len())).saturating_add(self.before)
    }

    /// Adds the file's name and the line of a place.
    fn add_line_number(&mut self, at: usize) -> Result<(), NoMemory> {
        self.text.append(self.name)?;
        self.text.push(b':')?;
        self.add_number(self.line_of(at))
    }

    pub(crate) fn add_number(&mut self, number: usize) -> Result<(), NoMemory> {
        let mut digits = Buffer::new();
        self.text.append(digits.format(number).as_bytes())
    }

    /// Adds a place, its line, and a caret below it. A place past the end counts as the end. A long line is cut.
    fn show(&mut self, at: usize) -> Result<(), NoMemory> {
        let at = at.min(self.script.len());
        let before = column(self.script, at);
        let line = line_around(self.script, at);
        self.add_line_number(at)?;
        self.text.push(b':')?;
        self.add_number(before + 1)?;
        self.text.push(b'\n')?;
        let before = before.min(line.len());
        let begin = before.saturating_sub(AROUND);
        let end = before.saturating_add(AROUND).min(line.len());
        if begin > 0 {
            self.text.append(b"..")?;
        }
        self.text.append(&line[begin..end])?;
        self.text
            .append(if end < line.len() { b"..\n" } else { b"\n" })?;
        if begin > 0 {
            self.text.append(b"  ")?;
        }
        for byte in &line[begin..before] {
            self.text.push(if *byte == b'\t' { b'\t' } else { b' ' })?;
        }
        self.text.append(b"^\n")
    }

    /// Adds a note that the line at a place is in the block that starts at another place.
    fn note(&mut self, at: usize, block: usize) -> Result<(), NoMemory> {
        self.add_line_number(at)?;
        self.text
            .append(b": this line is a row of the block that begins in line ")?;
        self.add_number(self.line_of(block))?;
        self.text.push(b'\n')
    }
}

/// Whether a line starts like a CREATE or a CALL, or like `COPY x <<` or `JOURNAL <<`.
fn looks_like_item(line: &[u8]) -> bool {
    let line = line.trim_ascii();
    begins(line, b"create ")
        || begins(line, b"call ")
        || (line.ends_with(b"<<") && (begins(line, b"copy ") || begins(line, b"journal")))
}

/// Whether a line begins with a word, in any letter case.
fn begins(line: &[u8], word: &[u8]) -> bool {
    match line.get(..word.len()) {
        Some(front) => front.eq_ignore_ascii_case(word),
        None => false,
    }
}

/// Whether a line has `>>` at its start or end, and something beside it.
fn looks_like_end(line: &[u8]) -> bool {
    let inner = line.trim_ascii();
    (inner.starts_with(b">>") || inner.ends_with(b">>"))
        && line != b">>".as_slice()
        && line != b">>\r".as_slice()
}
