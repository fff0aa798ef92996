//! Which lines are events, and which line is reported if one isn't.

ghost use Rattle.std.specs.Prelude.{◌≡◌, ◌<◌, ◌^◌, length};

use crate::cases::ensure_at;
use mv_journal::fault::LineFault;
use mv_journal::journal::{read_journal, write_journal};
use mv_values::list::List;
use mv_values::memory::NoMemory;
use std::alloc::Global;
use std::test::Fail;

/// Returns the text of the events of a journal, or the number of its first bad line.
fn read_and_written(alloc: Global, bytes: &[u8]) -> Result<Result<List<u8>, u32>, NoMemory>
    requires { length bytes.now < 2 ^ 32 }
{
    match read_journal(alloc, bytes) {
        Ok(events) => {
            let mut text = List::new(alloc);
            write_journal(&events, &mut text)?;
            Ok(Ok(text))
        }
        Err(LineFault::Line { n }) => Ok(Err(n)),
        Err(LineFault::NoMemory) => Err(NoMemory),
    }
}

const JOURNALS: &[(&[u8], Result<&[u8], u32>)] = &[
    (b"", Ok(b"")),
    (b"B 0\nS 0\nC 0\n", Ok(b"B 0\nS 0\nC 0\n")),
    (b"B 0\r\nG\r\nX 7", Ok(b"B 0\nG\nX 7\n")),
    (b"A 007\nM 00", Ok(b"A 7\nM 0\n")),
    (b"C 4294967295\nG", Ok(b"C 4294967295\nG\n")),
    (b"\n", Err(1)),
    (b"B 0\n\nC 0\n", Err(2)),
    (b"B 0\nQ 0\n", Err(2)),
    (b"G 0", Err(1)),
    (b"b 0", Err(1)),
    (b"B", Err(1)),
    (b"B ", Err(1)),
    (b"B  0", Err(1)),
    (b"B 0 ", Err(1)),
    (b"B +1", Err(1)),
    (b"B -0", Err(1)),
    (b"G\r", Err(1)),
    (b"B 4294967296", Err(1)),
    (b"B 0\nC 99999999999999999999", Err(2)),
];

fn is_read_as(alloc: Global, bytes: &[u8], want: Result<&[u8], u32>) -> Result<bool, Fail> {
    if bytes.len() > 1000 {
        return Err("a long journal".into());
    }
    match (read_and_written(alloc, bytes)?, want) {
        (Ok(text), Ok(want)) => Ok(text.as_slice() == want),
        (Err(n), Err(want)) => Ok(n == want),
        _ => Ok(false),
    }
}

#[test]
fn journals_are_read_line_by_line(rt: HostRuntime) -> Result<(), Fail> {
    for (i, (bytes, want)) in JOURNALS.iter().enumerate() {
        ensure_at(rt.alloc(), is_read_as(rt.alloc(), bytes, *want)?, i)?;
    }
    Ok(())
}
