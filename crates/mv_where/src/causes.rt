//! The statements that a text of `why` names.

use crate::outline::{Outline, Statement};
use crate::place::first_line;
use crate::refusal::number_in;
use itoa::Buffer;
use mv_values::list::List;
use mv_values::memory::NoMemory;
use std::alloc::Global;
use std::str;

/// The most bytes of a statement that are shown.
const SHOWN: usize = 100;

/// Whether a text starts as one of `why` does that names statements.
pub(crate) fn is_why(text: &[u8]) -> bool {
    text.starts_with(b"why ")
}

/// A text of `why` with the place of each statement.
#[derive(Drop)]
struct Shown<'a> {
    name: &'a [u8],
    script: &'a [u8],
    /// How many lines of the file are before the script.
    before: usize,
    outline: Outline<'a>,
    /// The place in the outline of the procedure that was called.
    procedure: Option<usize>,
    text: List<u8>,
}

/// Returns a text of `why` in which each line with a path also has the place and the first line of its statement.
pub(crate) fn with_statements<'a>(
    alloc: Global,
    name: &'a [u8],
    script: &'a [u8],
    before: usize,
    outline: Outline<'a>,
    text: &[u8],
) -> Result<List<u8>, NoMemory> {
    let mut shown = Shown {
        name,
        script,
        before,
        outline,
        procedure: None,
        text: List::new(alloc),
    };
    for (index, line) in text.split(|byte| *byte == b'\n').enumerate() {
        if index > 0 {
            shown.text.push(b'\n')?;
        }
        shown.add(line)?;
    }
    Ok(shown.text)
}

impl Shown<'_> {
    /// Adds a line, and the statement that its path leads to.
    fn add(&mut self, line: &[u8]) -> Result<(), NoMemory> {
        self.text.append(line)?;
        let Ok(words) = str::from_utf8(line) else {
            return Ok(());
        };
        if let Some(call) = call_in(words) {
            self.procedure = self.outline.procedure_of(call);
            return Ok(());
        }
        match self.statement_in(words) {
            Some(statement) => self.add_statement(statement),
            None => Ok(()),
        }
    }

    /// Returns the statement to which the path of a line leads.
    fn statement_in(&self, words: &str) -> Option<Statement> {
        let (path, _) = words.split_once(' ')?;
        self.outline.statement(self.procedure?, last_in(path)?)
    }

    /// Adds a statement: the file's name, its line, and what is on that line from its first word on.
    fn add_statement(&mut self, statement: Statement) -> Result<(), NoMemory> {
        let mut digits = Buffer::new();
        let line = statement.line.saturating_add(self.before);
        let source = &self.script[statement.at.min(self.script.len())..];
        let words = first_line(source).trim_ascii_end();
        self.text.append(b"  ")?;
        self.text.append(self.name)?;
        self.text.push(b':')?;
        self.text.append(digits.format(line).as_bytes())?;
        self.text.push(b' ')?;
        self.text.append(&words[..words.len().min(SHOWN)])?;
        self.text
            .append(if words.len() > SHOWN { b".." } else { b"" })
    }
}

/// Returns the last number of a path, which is that of the statement.
fn last_in(path: &str) -> Option<u32> {
    let mut last = None;
    for part in path.split('.') {
        last = number_in(part);
    }
    last
}

/// Returns the call that a line names, if a repair's lines begin with it.
fn call_in(words: &str) -> Option<u32> {
    let (call, _) = words.strip_prefix("why ")?.split_once(' ')?;
    number_in(call)
}
