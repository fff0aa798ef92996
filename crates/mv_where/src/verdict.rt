//! The line of a report that `audit` names.

ghost use Rattle.std.specs.Prelude.{◌≤◌, length};

use crate::head::head_of;
use crate::place::first_line;
use crate::refusal::number_in;
use std::str;

/// Returns the number of the line that a text of `audit` names.
pub(crate) fn line_in(text: &[u8]) -> Option<u32> {
    let line = str::from_utf8(first_line(text)).ok()?;
    number_in(line.strip_prefix("audit no line ")?)
}

/// Returns where in a file the report begins: after the script in an input of `audit`. Any other file is a report.
pub(crate) fn report_start(file: &[u8]) -> usize
    ensures { result ≤ length file.now }
{
    match head_of(file) {
        Some(head) => head.to,
        None => 0,
    }
}

/// Returns the place of the line with a number, from 1. It is the end if there are fewer lines.
pub(crate) fn line_start(report: &[u8], number: u32) -> usize
    ensures { result ≤ length report.now }
{
    let mut at = 0usize;
    for (index, line) in report.split(|byte| *byte == b'\n').enumerate() {
        if index >= (number as usize).saturating_sub(1) {
            break;
        }
        at = at.saturating_add(line.len()).saturating_add(1);
    }
    at.min(report.len())
}

/// Where in a report the lines of the journal begin, and where they end.
#[derive(Clone, Copy)]
struct Journal {
    from: usize,
    to: usize,
}

/// Returns where the journal of a report is.
fn journal_in(report: &[u8]) -> Option<Journal> {
    let mut at = 0usize;
    let mut begin = None;
    for line in report.split(|byte| *byte == b'\n') {
        let next = at.saturating_add(line.len()).saturating_add(1);
        match begin {
            None if line == b"journal".as_slice() => begin = Some(next),
            Some(from) if ends_journal(line) => return Some(Journal { from, to: at }),
            _ => {}
        }
        at = next;
    }
    let from = begin?;
    Some(Journal { from, to: at })
}

/// Whether a line is the first one after a journal.
fn ends_journal(line: &[u8]) -> bool {
    line.starts_with(b"table") || line == b"end".as_slice()
}

/// Returns what is said of the line at a place of a report that `audit` names.
pub(crate) fn sentence(report: &[u8], at: usize) -> &'static str {
    match journal_in(report) {
        Some(journal) if journal.from <= at && at < journal.to => {
            "this line of the journal is no event, one that isn't allowed here, or one that is written in another way"
        }
        Some(journal) if journal.to == at => {
            "at the end of the journal a call hasn't committed, or the text of the journal has another line here"
        }
        _ if at >= report.len() => "the report ends here, and the text of its journal goes on",
        _ => "the text of the report's own journal has another line here",
    }
}
