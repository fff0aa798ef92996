//! Whole runs over a source and a sink in memory.

use mv_cases::ensure::ensure;
use mv_edge::memory_sink::MemorySink;
use mv_edge::memory_source::MemorySource;
use mv_edge::pace::Pace;
use mv_top::status::Status;
use mv_top::top::top;
use mv_values::list::List;
use mv_values::memory::NoMemory;
use std::alloc::Global;
use std::sync::Wait;
use std::test::Fail;
use std::thread::Threads;

/// Joins texts.
pub(crate) fn joined(alloc: Global, parts: &[&str]) -> Result<String, Fail> {
    let mut text = String::new(alloc);
    for part in parts {
        text.push_str(part)?;
    }
    Ok(text)
}

/// The parts of a run's text: the replies, the history, the journal and the tables.
pub(crate) type Parts = [&'static str; 4];

/// Returns the text of a run from its parts.
pub(crate) fn run_text(alloc: Global, parts: &[&str; 4]) -> Result<String, Fail> {
    let [replies, history, journal, tables] = *parts;
    let front = joined(alloc, &[replies, "history\n", history, "journal\n"])?;
    joined(alloc, &[front.as_str(), journal, tables, "end\n"])
}

/// The numbers of the reads that fail and of the writes that fail, and the room of the sink.
pub(crate) type Edges = (&'static [u64], &'static [u64], usize);

/// A source and a sink without faults, and enough room.
pub(crate) const SOUND: Edges = (&[], &[], 1_000_000);

fn listed<T: Copy>(alloc: Global, items: &[T]) -> Result<List<T>, NoMemory> {
    let mut list = List::new(alloc);
    list.append(items)?;
    Ok(list)
}

/// Returns a source of these bytes. Its reads with these numbers fail.
fn source(alloc: Global, input: &[u8], failing: &[u64]) -> Result<MemorySource, NoMemory> {
    let bytes = listed(alloc, input)?;
    Ok(MemorySource::new(bytes, listed(alloc, failing)?))
}

fn strings(alloc: Global, words: &[&str]) -> Result<Vec<String>, Fail> {
    let mut all = Vec::new(alloc);
    for word in words {
        all.push(String::from_str(alloc, word)?)?;
    }
    Ok(all)
}

/// Checks that this text was written to a sink.
fn wrote(alloc: Global, sink: &MemorySink, want: &str) -> Result<(), Fail> {
    let text = str::from_utf8(sink.written()).or(Err("no text"))?;
    if text == want {
        return Ok(());
    }
    Err(format!(in alloc; "{text} in place of {want}")?.into())
}

/// Checks that a run with these words, a source and a sink ends with this status and writes this text.
fn runs_on<R: Threads + Wait + Sync, P: Pace>(
    rt: &R,
    alloc: Global,
    pace: &P,
    words: &[String],
    source: &mut MemorySource,
    sink: &mut MemorySink,
    want: (Status, &str),
) -> Result<(), Fail> {
    let (status, text) = want;
    let got = top(rt, alloc, words, source, sink, pace);
    wrote(alloc, sink, text)?;
    ensure(alloc, got == status, "another status")
}

/// Checks that a run with these words on an input ends with this status and writes this text, if its workers call this
/// pace.
pub(crate) fn runs_at<R: Threads + Wait + Sync, P: Pace>(
    rt: &R,
    alloc: Global,
    pace: &P,
    words: &[&str],
    input: &[u8],
    edges: Edges,
    want: (Status, &str),
) -> Result<(), Fail> {
    let (reads, writes, room) = edges;
    let words = strings(alloc, words)?;
    let mut source = source(alloc, input, reads)?;
    let mut sink = MemorySink::new(alloc, room, listed(alloc, writes)?)?;
    runs_on(
        rt,
        alloc,
        pace,
        words.as_slice(),
        &mut source,
        &mut sink,
        want,
    )
}
