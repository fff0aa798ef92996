//! Shows where in a script a refusal points: `mv3c run < order.sql | where order.sql` passes the text through, and adds
//! the place that it names, the line and a caret, and what the refusal means there. For the line that `audit` names it
//! shows that line of the report, and beside each path that `why` writes the statement.
#![tactic(auto)]

mod advice;
mod answer;
mod blocks;
mod causes;
mod fault;
mod grammar;
mod head;
mod ordered;
mod outline;
mod passing;
mod place;
mod reading;
mod records;
mod refusal;
mod types;
mod verdict;
mod words;

use crate::answer::{answer, causes_in, line_at};
use crate::causes::is_why;
use crate::fault::Fault;
use crate::passing::{front_of, pass, with_rest};
use crate::refusal::is_refusal;
use crate::verdict::line_in;
use mv_edge::std_edge::{StdSink, StdSource};
use mv_edge::writing::write_all;
use mv_values::list::List;
use std::process::ExitCode;
use std::{env, fs};

fn main(rt: HostRuntime) -> ExitCode {
    let mut sink = StdSink::new(rt.stdout());
    let ended = match file_name(&rt) {
        Some(name) => tell(&rt, name.as_str(), &mut sink),
        None => usage(&mut sink),
    };
    ExitCode::from(match ended {
        Ok(status) => status,
        Err(Fault::NoMemory) => 3,
        Err(Fault::Unread) => 4,
        Err(Fault::Unwritten) => 5,
    })
}

/// Returns the only word after the program's name. `None` if there is no word, more than one, or one that isn't UTF-8.
fn file_name(rt: &HostRuntime) -> Option<String> {
    let mut words = env::args(rt).ok()?.skip(1);
    let name = words.next()?;
    match words.next() {
        None => Some(name),
        Some(_) => None,
    }
}

fn usage(sink: &mut StdSink) -> Result<u8, Fault> {
    write_all(sink, b"usage: where FILE, with the text of mv3c as input\n").map_err(
        |_| Fault::Unwritten,
    )?;
    Ok(2)
}

/// Passes standard input through, and adds the places in the file that it names. Returns 1 after a refusal.
fn tell(rt: &HostRuntime, name: &str, sink: &mut StdSink) -> Result<u8, Fault> {
    let mut source = StdSource::new(rt.stdin());
    let front = front_of(rt.alloc(), &mut source)?;
    if is_why(front.as_slice()) {
        return tell_causes(rt, name, front, &mut source, sink);
    }
    pass(front.as_slice(), &mut source, sink)?;
    if let Some(number) = line_in(front.as_slice()) {
        let file = fs::read(rt, name).map_err(|_| Fault::Unread)?;
        let place = line_at(rt.alloc(), name.as_bytes(), file.as_slice(), number)?;
        write_all(sink, place.as_slice()).map_err(|_| Fault::Unwritten)?;
    }
    if !is_refusal(front.as_slice()) {
        return Ok(0);
    }
    let file = fs::read(rt, name).map_err(|_| Fault::Unread)?;
    let places = answer(
        rt.alloc(),
        name.as_bytes(),
        file.as_slice(),
        front.as_slice(),
    )?;
    write_all(sink, places.as_slice()).map_err(|_| Fault::Unwritten)?;
    Ok(1)
}

/// Writes a text of `why` with the statements that its paths lead to.
fn tell_causes(
    rt: &HostRuntime,
    name: &str,
    front: List<u8>,
    source: &mut StdSource,
    sink: &mut StdSink,
) -> Result<u8, Fault> {
    let file = fs::read(rt, name).map_err(|_| Fault::Unread)?;
    let text = with_rest(rt.alloc(), front, source)?;
    let causes = causes_in(
        rt.alloc(),
        name.as_bytes(),
        file.as_slice(),
        text.as_slice(),
    )?;
    pass(causes.as_slice(), source, sink)?;
    Ok(0)
}
