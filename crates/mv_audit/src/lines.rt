//! Reads the lines of a report.

ghost use Rattle.std.specs.Prelude.{◌≡◌, ◌<◌, ◌≤◌, ◌+◌, ◌^◌, ◌∷◌, ◌==◌, [], Some, None, IfOk, IfSome, IfNone, length, codes, if◌then◌else◌};
ghost use Rattle.mv_report.specs.JournalLines.{is_word, begins_with, lines_in, after_journal, ends_journal, before_tables};
ghost use Rattle.mv_lawful.specs.Outcomes.{has_line};
ghost use Rattle.mv_audit.specs.Verdicts.{ends_in, journal_at, shown_event, events_of};

use mv_journal::event::Event;
use mv_journal::line::read_event;
use mv_values::list::List;
use mv_values::memory::NoMemory;
use std::alloc::Global;

/// The first line of bytes, and the bytes after it.
#[derive(Clone, Copy)]
pub(crate) struct Split<'a> {
    pub line: &'a [u8],
    pub rest: &'a [u8],
}

/// Splits off the first line. Within single quotes an LF ends no line. What no LF ends is no line.
pub(crate) fn split_line(bytes: &[u8]) -> Option<Split<'_>>
    ensures some { IfSome result (λ s. lines_in bytes.now ≡ s.line.now ∷ lines_in s.rest.now) }
    ensures whole { IfSome result (λ s. length s.line.now + length s.rest.now + 1 ≡ length bytes.now) }
    ensures none { IfNone result (lines_in bytes.now ≡ []) }
{
    let mut quoted = false;
    for i in 0..bytes.len() {
        if bytes[i] == b'\n' && !quoted {
            return Some(Split {
                line: &bytes[..i],
                rest: &bytes[i + 1..],
            });
        }
        if bytes[i] == b'\'' {
            quoted = !quoted;
        }
    }
    None
}

/// Whether the line is this word.
fn is_word(line: &[u8], word: &[u8]) -> bool
    ensures { result ≡ is_word line.now word.now }
{
    line == word
}

/// Whether the line begins with this word.
fn begins_with(line: &[u8], word: &[u8]) -> bool
    ensures { result ≡ begins_with line.now word.now }
{
    for i in 0..word.len() {
        if i >= line.len() {
            return false;
        }
        if line[i] != word[i] {
            return false;
        }
    }
    true
}

/// Whether the line begins with `table` or is `end`.
fn ends_journal(line: &[u8]) -> bool
    ensures { result ≡ ends_journal line.now }
{
    begins_with(line, b"table") || is_word(line, b"end")
}

/// Counts the LFs.
fn ends_in(bytes: &[u8]) -> usize
    ensures count { result ≡ ends_in bytes.now }
    ensures few { result ≤ length bytes.now }
{
    let mut count = 0;
    for byte in bytes {
        if *byte == b'\n' {
            count += 1;
        }
    }
    count
}

/// Where the journal of a report begins.
#[derive(Clone, Copy)]
pub(crate) struct Start<'a> {
    /// The number of the line `journal`.
    pub at: u32,
    /// The bytes after this line.
    pub rest: &'a [u8],
}

/// Finds the first line that is `journal`.
pub(crate) fn find_journal(report: &[u8]) -> Option<Start<'_>>
    requires { length report.now < 2 ^ 31 }
    ensures some { IfSome result (λ s. journal_at 1 (lines_in report.now) ≡ Some s.at) }
    ensures few { IfSome result (λ s. s.at ≤ length report.now) }
    ensures rest { IfSome result (λ s. after_journal (lines_in report.now) ≡ lines_in s.rest.now) }
    ensures less { IfSome result (λ s. length s.rest.now ≤ length report.now) }
    ensures none { IfNone result (journal_at 1 (lines_in report.now) ≡ None) }
{
    let mut at = 1;
    let mut left = report;
    while let Some(split) = split_line(left) {
        if is_word(split.line, b"journal") {
            return Some(Start {
                at,
                rest: split.rest,
            });
        }
        at += ends_in(split.line) as u32 + 1;
        left = split.rest;
    }
    None
}

/// The events of a journal.
#[derive(Drop)]
pub(crate) struct Events {
    /// The events of its lines, up to the first that has none.
    pub events: List<Event>,
    /// Whether each line has one.
    pub whole: bool,
}

/// Returns the event if a text has a line for it. Statements and collections have none.
fn with_line(event: Event) -> Option<Event>
    ensures { result ≡ (if has_line event then Some event else None) }
{
    match event {
        Event::S(_) | Event::G => None,
        Event::B(_) | Event::A(_) | Event::M(_) | Event::C(_) | Event::X(_) | Event::R(_) => Some(
            event,
        ),
    }
}

/// Returns the event of a line in a text.
fn shown_event(line: &[u8]) -> Option<Event>
    ensures { result ≡ shown_event line.now }
{
    match read_event(line) {
        None => None,
        Some(event) => with_line(event),
    }
}

/// Reads the events of the lines before the first one that begins with `table` or is `end`.
pub(crate) fn read_events(alloc: Global, bytes: &[u8]) -> Result<Events, NoMemory>
    ensures events { IfOk result (λ r. r.events ≡ events_of (before_tables (lines_in bytes.now))) }
    ensures whole { IfOk result (λ r. r.whole ≡ (length r.events == length (before_tables (lines_in bytes.now)))) }
    ensures few { IfOk result (λ r. length r.events ≤ length bytes.now) }
{
    let mut events = List::new(alloc);
    let mut left = bytes;
    while let Some(split) = split_line(left) {
        if ends_journal(split.line) {
            return Ok(Events {
                events,
                whole: true,
            });
        }
        let Some(event) = shown_event(split.line) else {
            return Ok(Events {
                events,
                whole: false,
            });
        };
        events.push(event)?;
        left = split.rest;
    }
    Ok(Events {
        events,
        whole: true,
    })
}
