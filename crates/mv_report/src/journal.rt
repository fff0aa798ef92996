//! Part 3 of a run's text: the events.

ghost use Rattle.std.specs.Prelude.{◌≡◌, ◌++◌, OnOk};
ghost use Rattle.mv_report.specs.Text.{event_line, journal_text};

use mv_journal::event::{Event, write_event};
use mv_values::list::List;
use mv_values::memory::NoMemory;

/// Adds a line for each event. Statements and collections have none.
pub(crate) fn write_journal(events: &[Event], text: &mut List<u8>) -> Result<(), NoMemory>
    ensures { OnOk result (text.new ≡ text.old ++ journal_text events.now) }
{
    for event in events {
        write_line(*event, text)?;
    }
    Ok(())
}

fn write_line(event: Event, text: &mut List<u8>) -> Result<(), NoMemory>
    ensures { OnOk result (text.new ≡ text.old ++ event_line event) }
{
    match event {
        Event::S(_) | Event::G => Ok(()),
        _ => {
            write_event(event, text)?;
            text.push(b'\n')
        }
    }
}
