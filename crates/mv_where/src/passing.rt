//! Passes a text through.

ghost use Rattle.std.specs.Prelude.{◌≡◌, ◌++◌, Some, take, drop, IfOk, OnOk};
ghost use Rattle.std.specs.Option.{ForSome};
ghost use Rattle.mv_edge.specs.Edge.{Reads, Writes};

use crate::fault::Fault;
use mv_edge::edge::{Sink, Source};
use mv_edge::reading::{MOST, ReadFault, read_all};
use mv_edge::writing::write_all;
use mv_values::list::List;
use mv_values::memory::NoMemory;
use std::alloc::Global;

/// How many bytes of a text are looked at. A refusal is shorter.
const FRONT: usize = 4096;

/// Reads the front of a text. It has at least `FRONT` bytes if there are so many.
pub fn front_of<S: Source>(alloc: Global, source: &mut S) -> Result<List<u8>, Fault>
    ensures { IfOk result (Reads (S.left source.old) (S.left source.new)) }
{
    let mut front = List::new(alloc);
    let mut buffer = [0u8; FRONT];
    while front.len() < FRONT {
        let Ok(n) = source.read(&mut buffer) else {
            return Err(Fault::Unread);
        };
        if n == 0 {
            return Ok(front);
        }
        front.append(&buffer[..n])?;
    }
    Ok(front)
}

/// Returns the front of a text and the bytes that are left in its source, at most `MOST`. The bytes after these stay in the
/// source.
pub fn with_rest<S: Source>(
    alloc: Global,
    front: List<u8>,
    source: &mut S,
) -> Result<List<u8>, Fault>
    ensures text { IfOk result (λ text. ForSome (S.left source.old) (λ rest. text ≡ front ++ take MOST rest)) }
    ensures rest { OnOk result (ForSome (S.left source.old) (λ rest. S.left source.new ≡ Some (drop MOST rest))) }
{
    let mut text = front;
    match read_all(alloc, source) {
        Ok(rest) => text.append(rest.as_slice())?,
        Err(ReadFault::NoMemory) => return Err(Fault::NoMemory),
        Err(ReadFault::Failed) => return Err(Fault::Unread),
    }
    Ok(text)
}

/// Writes the front of a text.
fn write_front<K: Sink>(front: &[u8], sink: &mut K) -> Result<(), Fault>
    ensures { OnOk result (Writes (K.written sink.old) (K.written sink.new) front.now) }
{
    match write_all(sink, front) {
        Ok(()) => Ok(()),
        Err(_) => Err(Fault::Unwritten),
    }
}

/// Writes the front of a text, and passes all bytes that are left in its source on to a sink.
pub fn pass<S: Source, K: Sink>(front: &[u8], source: &mut S, sink: &mut K) -> Result<(), Fault>
    ensures { OnOk result (ForSome (S.left source.old) (λ rest. Writes (K.written sink.old) (K.written sink.new) (front.now ++ rest))) }
{
    write_front(front, sink)?;
    let mut buffer = [0u8; FRONT];
    'pieces: for _ in 0..u64::MAX {
        let Ok(n) = source.read(&mut buffer) else {
            return Err(Fault::Unread);
        };
        if n == 0 {
            return Ok(());
        }
        if write_all(sink, &buffer[..n]).is_err() {
            return Err(Fault::Unwritten);
        }
    }
    Err(Fault::Unread)
}
