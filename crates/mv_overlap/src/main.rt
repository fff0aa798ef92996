//! Writes a script with a journal in which calls overlap: `overlap 7 8 < s.sql > t.sql` has eight calls live at once. The
//! journal is lawful, so `replay` accepts it.
#![tactic(auto)]

mod commits;
mod events;
mod fault;
mod mix;
mod text;
mod words;

use crate::fault::Fault;
use crate::text::answer;
use crate::words::mix_of;
use mv_edge::reading::read_all;
use mv_edge::std_edge::{StdSink, StdSource};
use mv_edge::writing::write_all;
use mv_values::memory::NoMemory;
use std::env;
use std::process::ExitCode;

const USAGE: &[u8] =
    b"usage: overlap SEED CALLS [--steps PERCENT] [--moves PERCENT] [--collections PERCENT] [--rounds ROUNDS] [--horizon COMMITS], with a script as input\n";

fn main(rt: HostRuntime) -> ExitCode {
    let mut sink = StdSink::new(rt.stdout());
    ExitCode::from(match run(&rt, &mut sink) {
        Ok(status) => status,
        Err(Fault::NoMemory) => 3,
        Err(Fault::Unread) => 4,
        Err(Fault::Unwritten) => 5,
        Err(Fault::Open) => 70,
    })
}

/// Returns the words after the program's name, as far as they are UTF-8.
fn arguments(rt: &HostRuntime) -> Result<Vec<String>, NoMemory> {
    let mut words = Vec::new(rt.alloc());
    let Ok(given) = env::args(rt) else {
        return Ok(words);
    };
    for word in given.skip(1) {
        words.push(word)?;
    }
    Ok(words)
}

/// Reads the script and writes it with its journal. Returns 1 if the script is refused, and 2 for words that say nothing.
fn run(rt: &HostRuntime, sink: &mut StdSink) -> Result<u8, Fault> {
    let words = arguments(rt)?;
    let Some(mix) = mix_of(words.as_slice()) else {
        return put(sink, USAGE, 2);
    };
    let script = read_all(rt.alloc(), &mut StdSource::new(rt.stdin()))?;
    let (text, status) = answer(rt.alloc(), script.as_slice(), mix)?;
    put(sink, text.as_slice(), status)
}

/// Writes a text, and returns this status.
fn put(sink: &mut StdSink, text: &[u8], status: u8) -> Result<u8, Fault> {
    write_all(sink, text).map_err(|_| Fault::Unwritten)?;
    Ok(status)
}
