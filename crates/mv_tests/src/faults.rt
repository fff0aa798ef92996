//! The text of one call, over sources whose reads fail and sinks that fail or have no room for it.

use crate::whole::{Edges, joined, runs_at};
use mv_cases::accounts::ADD;
use mv_edge::pace::NoPace;
use mv_top::status::Status;
use std::alloc::Global;
use std::sync::Wait;
use std::test::Fail;
use std::thread::Threads;

const TEXT: &str = "reply 0 done
105
history
1 0 starts 0 runs 4
journal
B 0
C 0
table acc
0,0,
1,105,
2,100,
3,100,
4,100,
end
";

/// The number of bytes of the text.
const LENGTH: usize = 108;

/// Returns the first bytes of the text, so many of them.
fn front(count: usize) -> Result<&'static str, Fail> {
    let bytes = TEXT.as_bytes();
    let n = bytes.len().min(count);
    Ok(str::from_utf8(&bytes[..n]).or(Err("no text"))?)
}

/// Reads and writes that fail, and what comes of it. The first read takes all, and the second finds the end.
const EDGES: &[(Edges, (Status, &str))] = &[
    ((&[0], &[], LENGTH), (Status::ReadFault, "")),
    ((&[1], &[], LENGTH), (Status::ReadFault, "")),
    ((&[], &[0], LENGTH), (Status::WriteFault, "")),
    ((&[2], &[], LENGTH), (Status::Done, TEXT)),
];

fn run_ends<R: Threads + Wait + Sync>(
    rt: &R,
    alloc: Global,
    input: &[u8],
    edges: Edges,
    want: (Status, &str),
) -> Result<(), Fail> {
    runs_at(rt, alloc, &NoPace, &["run"], input, edges, want)
}

#[test]
fn each_read_and_each_room(rt: HostRuntime) -> Result<(), Fail> {
    let input = joined(rt.alloc(), &[ADD, "CALL add(1, 5);"])?;
    let input = input.as_bytes();
    for (edges, want) in EDGES {
        run_ends(&rt, rt.alloc(), input, *edges, *want)?;
    }
    for room in 0..LENGTH {
        let want = (Status::WriteFault, front(room)?);
        run_ends(&rt, rt.alloc(), input, (&[], &[], room), want)?;
    }
    Ok(())
}

/// Words, an input, the room for a line, and its front that is written.
const LINES: &[(&[&str], &[u8], usize, &str)] = &[
    (&["run"], b"x", 10, "refused 4 "),
    (&[], b"", 5, "usage"),
    (&["runs"], b"", 0, ""),
];

#[test]
fn a_line_without_room(rt: HostRuntime) -> Result<(), Fail> {
    for (words, input, room, front) in LINES {
        let edges: Edges = (&[], &[], *room);
        let want = (Status::WriteFault, *front);
        runs_at(&rt, rt.alloc(), &NoPace, words, input, edges, want)?;
    }
    Ok(())
}
