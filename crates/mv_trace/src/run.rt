//! The parts of the text of a run.

use crate::fault::TextFault;
use crate::rounds::line_in;
use mv_journal::event::Event;
use mv_journal::line::read_event;
use mv_journal::outcome::HistoryLine;
use mv_values::list::List;
use std::alloc::Global;
use std::str;

/// How a call ended.
#[derive(Clone, Copy)]
pub enum End<'a> {
    Done,
    /// It was rolled back for this reason, as it's written.
    RolledBack(&'a [u8]),
}

/// The parts of a run's text that pictures and figures are made of.
#[derive(Drop)]
pub(crate) struct Run<'a> {
    /// How each call ended.
    pub(crate) ends: List<End<'a>>,
    /// The number of the line `history`.
    pub(crate) history_at: usize,
    /// The commits, in their order.
    pub(crate) history: List<HistoryLine>,
    /// The number of the line `journal`.
    pub(crate) journal_at: usize,
    pub(crate) journal: List<Event>,
}

/// A part of the text.
#[derive(Clone, Copy, PartialEq, Eq)]
enum Part {
    Replies,
    History,
    Journal,
    Tables,
}

/// Reads the text of a run, up to its tables.
pub(crate) fn read_run(alloc: Global, text: &[u8]) -> Result<Run<'_>, TextFault> {
    let mut run = Run {
        ends: List::new(alloc),
        history_at: 0,
        history: List::new(alloc),
        journal_at: 0,
        journal: List::new(alloc),
    };
    let mut part = Part::Replies;
    let mut number = 0usize;
    for line in text.split(|byte| *byte == b'\n') {
        number = number.saturating_add(1);
        part = run.read_line(alloc, part, number, line)?;
        if part == Part::Tables {
            return Ok(run);
        }
    }
    Err(TextFault::Line(number))
}

impl<'a> Run<'a> {
    /// Reads a line of a part, and returns the part that the next line is of.
    fn read_line(
        &mut self,
        alloc: Global,
        part: Part,
        number: usize,
        line: &'a [u8],
    ) -> Result<Part, TextFault> {
        match part {
            Part::Replies => self.read_reply(number, line),
            Part::History => self.read_call(alloc, number, line),
            Part::Journal | Part::Tables => self.read_event(number, line),
        }
    }

    /// Reads a line of a reply. After the first one come those of PRINT, which are left out. They have texts in quotes, so
    /// none is like the first line of a reply or like `history`.
    fn read_reply(&mut self, number: usize, line: &'a [u8]) -> Result<Part, TextFault> {
        if line == b"history".as_slice() {
            self.history_at = number;
            return Ok(Part::History);
        }
        match end_in(line, self.ends.len()) {
            Some(end) => self.ends.push(end)?,
            None if self.ends.len() == 0 => return Err(TextFault::Line(number)),
            None => {}
        }
        Ok(Part::Replies)
    }

    /// Reads a line of the history.
    fn read_call(&mut self, alloc: Global, number: usize, line: &[u8]) -> Result<Part, TextFault> {
        if line == b"journal".as_slice() {
            self.journal_at = number;
            return Ok(Part::Journal);
        }
        match line_in(alloc, line)? {
            Some(call) => self.history.push(call)?,
            None => return Err(TextFault::Line(number)),
        }
        Ok(Part::History)
    }

    /// Reads a line of the journal, or the first line after it.
    fn read_event(&mut self, number: usize, line: &[u8]) -> Result<Part, TextFault> {
        if line.starts_with(b"table ") || line == b"end".as_slice() {
            return Ok(Part::Tables);
        }
        match read_event(line) {
            Some(event) => self.journal.push(event)?,
            None => return Err(TextFault::Line(number)),
        }
        Ok(Part::Journal)
    }
}

/// Returns how a call ended if this is the line with which its reply begins.
fn end_in(line: &[u8], call: usize) -> Option<End<'_>> {
    let line = str::from_utf8(line).ok()?;
    let (number, answer) = line.strip_prefix("reply ")?.split_once(' ')?;
    if number.parse::<usize>() != Ok(call) {
        return None;
    }
    if answer == "done" {
        return Some(End::Done);
    }
    let reason = answer.strip_prefix("rolled back ")?;
    Some(End::RolledBack(reason.as_bytes()))
}
