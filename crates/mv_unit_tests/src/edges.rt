//! Sources and sinks in memory that work or fail.

use crate::cases::ensure_at;
use mv_edge::edge::Failed;
use mv_edge::memory_sink::MemorySink;
use mv_edge::memory_source::MemorySource;
use mv_edge::reading::{ReadFault, read_all};
use mv_edge::writing::write_all;
use mv_values::list::List;
use mv_values::memory::NoMemory;
use std::alloc::Global;
use std::test::Fail;

fn only(alloc: Global, call: u64) -> Result<List<u64>, NoMemory> {
    let mut calls = List::new(alloc);
    calls.push(call)?;
    Ok(calls)
}

/// The read that fails, and how many of 5000 bytes are read or the fault.
const READS: &[(u64, Result<usize, ReadFault>)] = &[
    (0, Err(ReadFault::Failed)),
    (1, Err(ReadFault::Failed)),
    (2, Err(ReadFault::Failed)),
    (3, Ok(5000)),
];

/// Returns a source of 5000 bytes whose call with this number fails.
fn source(alloc: Global, failing: u64) -> Result<MemorySource, NoMemory> {
    let calls = only(alloc, failing)?;
    let mut bytes = List::new(alloc);
    bytes.append(&[7; 5000])?;
    Ok(MemorySource::new(bytes, calls))
}

fn read(alloc: Global, failing: u64) -> Result<Result<usize, ReadFault>, NoMemory> {
    let mut source = source(alloc, failing)?;
    match read_all(alloc, &mut source) {
        Ok(bytes) => Ok(Ok(bytes.len())),
        Err(fault) => Ok(Err(fault)),
    }
}

#[test]
fn reads_all_or_fails(rt: HostRuntime) -> Result<(), Fail> {
    let alloc = rt.alloc();
    for (i, (failing, want)) in READS.iter().enumerate() {
        ensure_at(alloc, read(alloc, *failing)? == *want, i)?;
    }
    Ok(())
}

/// The write that fails, the room, the result, and what is written.
type Written = (u64, usize, Result<(), Failed>, &'static [u8]);

const WRITES: &[Written] = &[
    (0, 6, Err(Failed), b""),
    (1, 6, Ok(()), b"abcdef"),
    (1, 7, Ok(()), b"abcdef"),
    (1, 5, Err(Failed), b"abcde"),
    (2, 5, Err(Failed), b"abcde"),
    (2, 0, Err(Failed), b""),
];

fn writes(alloc: Global, case: &Written) -> Result<bool, NoMemory> {
    let (failing, room, want, written) = *case;
    let mut sink = MemorySink::new(alloc, room, only(alloc, failing)?)?;
    let got = write_all(&mut sink, b"abcdef");
    Ok(got == want && sink.written() == written)
}

#[test]
fn writes_all_or_a_front(rt: HostRuntime) -> Result<(), Fail> {
    let alloc = rt.alloc();
    for (i, case) in WRITES.iter().enumerate() {
        ensure_at(alloc, writes(alloc, case)?, i)?;
    }
    Ok(())
}
