//! The events of a run.

ghost use Rattle.std.specs.Prelude.{◌≡◌, ◌++◌, ◌∷◌, OnOk, OnErr, decimal, take, length};
ghost use Rattle.mv_journal.specs.Events.{event_text, IsInRange};

use itoa::Buffer;
use mv_values::list::List;
use mv_values::memory::NoMemory;

/// An event of a run. Each one except a collection names a call by its number.
#[derive(Clone, Copy)]
pub enum Event {
    /// A call begins.
    B(u32),
    /// A call runs a statement.
    S(u32),
    /// A call is repaired from a new start.
    A(u32),
    /// A call moves to a new start and is executed again in full.
    M(u32),
    /// A call commits.
    C(u32),
    /// A call is repaired and commits in one step.
    X(u32),
    /// A call of a READ ONLY procedure is answered at its start.
    R(u32),
    /// Old versions are collected.
    G,
}

/// Appends the text of an event: its letter, and except for a collection a space and the number of its call. If memory
/// runs out, the text may end with a part of it.
pub fn write_event(event: Event, text: &mut List<u8>) -> Result<(), NoMemory>
    ensures ok { OnOk result (text.new ≡ text.old ++ event_text event) }
    ensures err { OnErr result (take (length text.old) text.new ≡ text.old) }
    ensures range { IsInRange event }
{
    match event {
        Event::B(call) => write_named(b'B', call, text),
        Event::S(call) => write_named(b'S', call, text),
        Event::A(call) => write_named(b'A', call, text),
        Event::M(call) => write_named(b'M', call, text),
        Event::C(call) => write_named(b'C', call, text),
        Event::X(call) => write_named(b'X', call, text),
        Event::R(call) => write_named(b'R', call, text),
        Event::G => text.push(b'G'),
    }
}

fn write_named(letter: u8, call: u32, text: &mut List<u8>) -> Result<(), NoMemory>
    ensures ok { OnOk result (text.new ≡ text.old ++ letter ∷ 32 ∷ decimal call) }
    ensures err { OnErr result (take (length text.old) text.new ≡ text.old) }
{
    let mut digits = Buffer::new();
    text.push(letter)?;
    text.push(b' ')?;
    text.append(digits.format(call).as_bytes())
}
