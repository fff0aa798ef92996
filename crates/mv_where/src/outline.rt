//! The statements of a script by their numbers.

use crate::blocks::{bytes_of, is_word};
use crate::place::line_number;
use crate::reading::is_in;
use mv_lex::token::{Kind, Token};
use mv_values::list::List;
use mv_values::memory::NoMemory;
use std::alloc::Global;

/// The words with which a statement begins.
const KEYWORDS: &str = "SET SELECT FOR IF INSERT UPDATE DELETE PRINT ROLLBACK";

/// The words after which a statement may begin. So it may after a semicolon.
const OPENERS: &str = "BEGIN THEN ELSE DO";

/// Where a statement begins, and the number of its line.
#[derive(Clone, Copy)]
pub(crate) struct Statement {
    pub(crate) at: usize,
    pub(crate) line: usize,
}

/// A procedure: its name, and how many statements are before its own.
#[derive(Clone, Copy)]
struct Procedure<'a> {
    name: &'a [u8],
    before: usize,
}

/// The procedures of a script with their statements, and the procedure that each call names.
#[derive(Drop)]
pub(crate) struct Outline<'a> {
    script: &'a [u8],
    procedures: List<Procedure<'a>>,
    statements: List<Statement>,
    calls: List<&'a [u8]>,
}

impl<'a> Outline<'a> {
    /// Returns the outline of a script. The number of a line is counted on from that of the statement before.
    pub(crate) fn of(
        alloc: Global,
        script: &'a [u8],
        tokens: &[Token],
    ) -> Result<Outline<'a>, NoMemory> {
        let mut outline = Outline {
            script,
            procedures: List::new(alloc),
            statements: List::new(alloc),
            calls: List::new(alloc),
        };
        for pair in tokens.windows(2) {
            if let [before, token] = pair {
                outline.add(before, token)?;
            }
        }
        Ok(outline)
    }

    /// Adds what begins with a token after another one.
    fn add(&mut self, before: &Token, token: &Token) -> Result<(), NoMemory> {
        let script = self.script;
        if is_word(script, before, b"procedure") {
            self.procedures.push(Procedure {
                name: bytes_of(script, token),
                before: self.statements.len(),
            })
        } else if is_word(script, before, b"call") {
            self.calls.push(bytes_of(script, token))
        } else if begins_statement(script, before, token) {
            let statement = self.next(token.at as usize);
            self.statements.push(statement)
        } else {
            Ok(())
        }
    }

    /// Returns the statement at a place after all others.
    fn next(&self, at: usize) -> Statement {
        let at = at.min(self.script.len());
        let (from, line) = match self.statements.as_slice().last() {
            Some(last) => (last.at.min(at), last.line),
            None => (0, 1),
        };
        let part = &self.script[from..at];
        Statement {
            at,
            line: line
                .saturating_add(line_number(part, part.len()))
                .saturating_sub(1),
        }
    }

    /// Returns the place in the list of procedures of the one that a call names.
    pub(crate) fn procedure_of(&self, call: u32) -> Option<usize> {
        let name = self.calls.as_slice().get(call as usize)?;
        self.procedures
            .as_slice()
            .iter()
            .position(|procedure| procedure.name.eq_ignore_ascii_case(*name))
    }

    /// Returns the statement of a procedure with a number, from 1.
    pub(crate) fn statement(&self, procedure: usize, number: u32) -> Option<Statement> {
        let procedures = self.procedures.as_slice();
        let before = procedures.get(procedure)?.before;
        let end = match procedures.get(procedure.saturating_add(1)) {
            Some(next) => next.before,
            None => self.statements.len(),
        };
        let at = before.saturating_add((number as usize).saturating_sub(1));
        if number == 0 || at >= end {
            return None;
        }
        let statement = self.statements.as_slice().get(at)?;
        Some(*statement)
    }
}

/// Whether a statement begins with a token after another one.
fn begins_statement(script: &[u8], before: &Token, token: &Token) -> bool {
    let opener = bytes_of(script, before);
    token.kind == Kind::Word
        && is_in(KEYWORDS, bytes_of(script, token))
        && (opener == b";".as_slice() || (before.kind == Kind::Word && is_in(OPENERS, opener)))
}
