//! The program. It reads standard input and writes standard output.
#![tactic(auto)]

use mv_edge::pace::NoPace;
use mv_edge::std_edge::{StdSink, StdSource};
use mv_top::status::Status;
use mv_top::top::top;
use std::env;
use std::io::ErrorKind;
use std::process::ExitCode;

fn main(rt: HostRuntime) -> ExitCode {
    let status = match words(&rt) {
        Some(words) => {
            let mut source = StdSource::new(rt.stdin());
            let mut sink = StdSink::new(rt.stdout());
            top(&rt, rt.alloc(), &words, &mut source, &mut sink, &NoPace)
        }
        None => Status::NoMemory,
    };
    ExitCode::from(status.code())
}

/// Returns the command line's words after the program's name. A line with a word that isn't UTF-8 is no command, so it
/// has no words here. `None` if memory runs out.
fn words(rt: &HostRuntime) -> Option<Vec<String>> {
    let mut words = Vec::new(rt.alloc());
    let arguments = match env::args(rt) {
        Ok(arguments) => arguments,
        Err(error) if error.kind() == ErrorKind::InvalidData => return Some(words),
        Err(_) => return None,
    };
    for word in arguments.skip(1) {
        words.push(word).ok()?;
    }
    Some(words)
}
