//! Makes pictures and figures of what mv3c wrote: `mv3c run < order.sql | show order.sql > run.svg` draws a time line.
#![tactic(auto)]

mod failure;
mod figures;
mod input;
mod picture;
mod wish;

use crate::failure::Failure;
use crate::figures::figures;
use crate::input::read_text;
use crate::picture::draw;
use crate::wish::{Wish, read_words};
use mv_edge::std_edge::{StdSink, StdSource};
use mv_edge::writing::write_all;
use mv_trace::trace::trace_of;
use mv_values::list::List;
use std::alloc::Global;
use std::fs;
use std::process::ExitCode;

/// What is written where the words after the program's name are others.
const USAGE: &[u8] = b"usage: show [figures] [FILE], with the text of mv3c as input\n";

fn main(rt: HostRuntime) -> ExitCode {
    let mut sink = StdSink::new(rt.stdout());
    let ended = match read_words(&rt) {
        Some(wish) => show(&rt, &wish, &mut sink),
        None => Err(Failure::Words),
    };
    ExitCode::from(match ended {
        Ok(status) => status,
        Err(failure) => tell(rt.alloc(), failure, &mut sink),
    })
}

/// Writes what is asked for of the text on standard input. A refusal is passed on.
fn show(rt: &HostRuntime, wish: &Wish, sink: &mut StdSink) -> Result<u8, Failure> {
    let text = read_text(rt.alloc(), &mut StdSource::new(rt.stdin()))?;
    if text.as_slice().starts_with(b"refused ") {
        write(sink, text.as_slice())?;
        return Ok(1);
    }
    let script = match &wish.script {
        Some(name) => Some(fs::read(rt, name.as_str()).map_err(|_| Failure::Unread)?),
        None => None,
    };
    let script = match &script {
        Some(bytes) => Some(bytes.as_slice()),
        None => None,
    };
    let shown = if wish.figures {
        let trace = trace_of(rt.alloc(), text.as_slice(), script)?;
        figures(rt.alloc(), trace.calls.as_slice())?
    } else {
        draw(rt.alloc(), text.as_slice(), script)?
    };
    write(sink, shown.as_slice())?;
    Ok(0)
}

/// Writes what is said of a failure, if anything, and returns the exit status.
fn tell(alloc: Global, failure: Failure, sink: &mut StdSink) -> u8 {
    match try_tell(alloc, failure, sink) {
        Ok(()) => failure.status(),
        Err(other) => other.status(),
    }
}

fn try_tell(alloc: Global, failure: Failure, sink: &mut StdSink) -> Result<(), Failure> {
    match failure {
        Failure::Words => write(sink, USAGE),
        Failure::Refused(fault) => {
            let mut sentence = List::new(alloc);
            fault.add_sentence(&mut sentence)?;
            write(sink, sentence.as_slice())
        }
        Failure::NoMemory | Failure::Unread | Failure::Unwritten => Ok(()),
    }
}

fn write(sink: &mut StdSink, text: &[u8]) -> Result<(), Failure> {
    write_all(sink, text).map_err(|_| Failure::Unwritten)
}
