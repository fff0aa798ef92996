//! Reads and writes a journal, which has one line for each event.

ghost use Rattle.std.specs.Prelude.{◌≡◌, ◌⊎◌, ◌<◌, ◌≤◌, ◌^◌, ◌++◌, ℕ, List as Seq, length, take, OnOk, OnErr, IfOk, IfErr, Ok, Err};
ghost use Rattle.std.specs.Str.Lines.{lines};
ghost use Rattle.mv_journal.specs.declared.event.Event.{Event};
ghost use Rattle.mv_journal.specs.declared.fault.LineFault.TheVariants as fault;
ghost use Rattle.mv_journal.specs.Events.{events_text};
ghost use Rattle.mv_journal.specs.Lines.{AreEventLines, IsFirstBad, TellsFault};

use crate::event::{Event, write_event};
use crate::fault::LineFault;
use crate::line::{first_line, read_event};
use mv_values::list::List;
use mv_values::memory::NoMemory;
use std::alloc::Global;

/// Parses a journal with one event on each line. A CR before an LF is dropped, and the last line may lack its LF. Fails
/// with `Line` at the first line that isn't an event, and with `NoMemory` if memory runs out. Takes time linear in the
/// length of the bytes.
pub fn read_journal(alloc: Global, bytes: &[u8]) -> Result<List<Event>, LineFault>
    requires { length bytes.now < 2 ^ 32 }
    ensures events { IfOk result (AreEventLines (lines bytes.now)) }
    ensures few { IfOk result (λ events. length events ≤ length bytes.now) }
    ensures only { (events : Seq Event) → AreEventLines (lines bytes.now) events → (result ≡ Ok events) ⊎ (result ≡ Err fault.NoMemory) }
    ensures fault { IfErr result (TellsFault (lines bytes.now)) }
    ensures told { (n : ℕ) → IsFirstBad (lines bytes.now) n → (result ≡ Err (fault.Line n)) ⊎ (result ≡ Err fault.NoMemory) }
{
    let mut events = List::new(alloc);
    let mut left = bytes;
    while !left.is_empty() {
        let first = first_line(left);
        let Some(event) = read_event(first.line) else {
            return Err(LineFault::Line {
                n: events.len() as u32 + 1,
            });
        };
        events.push(event)?;
        left = first.after;
    }
    Ok(events)
}

/// Adds a line for each event at the end of a text. What it adds reads back as the same events. Where no memory is found the text is as
/// before.
pub fn write_journal(events: &List<Event>, text: &mut List<u8>) -> Result<(), NoMemory>
    ensures ok { OnOk result (text.new ≡ text.old ++ events_text events.now) }
    ensures err { OnErr result (text.new ≡ text.old) }
    ensures back { OnOk result (AreEventLines (lines (events_text events.now)) events.now) }
{
    let len = text.len();
    let written = write_lines(events.as_slice(), text);
    if written.is_err() {
        text.truncate(len);
    }
    written
}

/// Adds a line for each event at the end of a text. Where no memory is found the text may end with a part of them.
fn write_lines(events: &[Event], text: &mut List<u8>) -> Result<(), NoMemory>
    ensures ok { OnOk result (text.new ≡ text.old ++ events_text events.now) }
    ensures err { OnErr result (take (length text.old) text.new ≡ text.old) }
    ensures back { OnOk result (AreEventLines (lines (events_text events.now)) events.now) }
{
    for event in events {
        write_event(*event, text)?;
        text.push(b'\n')?;
    }
    Ok(())
}
