//! The text of a script with a journal.

ghost use Rattle.std.specs.Prelude.{◌≡◌, ◌≤◌, ◌++◌, ℕ, length, take, IfOk};
ghost use Rattle.mv_accept.specs.Accepting.{most_calls};
ghost use Rattle.mv_record.specs.Databases.{IsProgram};
ghost use Rattle.mv_overlap.specs.Overlaps.{IsOverlap, block_of};

use crate::commits::overlapping;
use crate::fault::Fault;
use crate::mix::Mix;
use mv_accept::accept::{NotAccepted, accept};
use mv_accept::refusal::ScriptRefusal;
use mv_catalog::resolved::Program;
use mv_edge::reading::MOST;
use mv_journal::event::Event;
use mv_journal::journal::write_journal;
use mv_lex::lexer::lex;
use mv_top::script::{CompiledProgram, compile_program};
use mv_values::list::List;
use mv_values::memory::NoMemory;
use std::alloc::Global;

/// Returns the script with a journal in which its calls overlap, and the status 0. If the script is refused, returns the
/// line of the refusal and the status 1.
pub(crate) fn answer(alloc: Global, bytes: &[u8], mix: Mix) -> Result<(List<u8>, u8), Fault> {
    match accept(alloc, bytes) {
        Ok(program) => Ok((overlapped(alloc, bytes, program, mix)?, 0)),
        Err(NotAccepted::Refused(refusal)) => Ok((line_of(alloc, &refusal)?, 1)),
        Err(NotAccepted::NoMemory) => Err(Fault::NoMemory),
    }
}

/// Returns the line of a refusal.
fn line_of(alloc: Global, refusal: &ScriptRefusal) -> Result<List<u8>, NoMemory> {
    let mut line = List::new(alloc);
    line.append(refusal.line(alloc)?.as_slice())?;
    line.push(b'\n')?;
    Ok(line)
}

/// Returns the script of a program with a journal in which its calls overlap.
fn overlapped(alloc: Global, bytes: &[u8], program: Program, mix: Mix) -> Result<List<u8>, Fault>
    requires whole { IsProgram program }
    requires few { length program.resolved.calls ≤ most_calls }
    ensures { IfOk result (IsOverlap bytes.now program mix.options) }
{
    let front = front_of(alloc, bytes, &program)?;
    let CompiledProgram { script, .. } = compile_program(alloc, program, mix.options)?;
    let events = overlapping(alloc, script, mix)?;
    Ok(with_block(alloc, front, &events)?)
}

/// Returns the bytes before the journal of a program's script. Without a journal these are all.
fn front_of<'b>(alloc: Global, bytes: &'b [u8], program: &Program) -> Result<&'b [u8], Fault>
    ensures { IfOk result (λ front. (n : ℕ) × (front.now ≡ take n bytes.now)) }
{
    let at = match program.resolved.journal {
        None => bytes.len(),
        Some(_) => journal_at(alloc, bytes)?,
    };
    Ok(&bytes[..at.min(bytes.len())])
}

/// Returns the place of the last token but one: of the word JOURNAL, where a journal ends the script.
fn journal_at(alloc: Global, bytes: &[u8]) -> Result<usize, Fault> {
    if bytes.len() >= MOST {
        return Ok(bytes.len());
    }
    let Ok(tokens) = lex(alloc, bytes) else {
        return Err(Fault::NoMemory);
    };
    match tokens.as_slice() {
        [.., word, _] => Ok(word.at as usize),
        _ => Ok(bytes.len()),
    }
}

/// Returns these bytes and the block of a journal.
fn with_block(alloc: Global, front: &[u8], events: &List<Event>) -> Result<List<u8>, NoMemory>
    ensures { IfOk result (λ text. text ≡ front.now ++ block_of events.now) }
{
    let mut text = List::new(alloc);
    text.append(front)?;
    text.append(b"\nJOURNAL <<\n")?;
    write_journal(events, &mut text)?;
    text.append(b">>\n")?;
    Ok(text)
}
