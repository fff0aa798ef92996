//! Reading a source to its end.

ghost use Rattle.std.specs.Prelude.{◌≡◌, ◌≤◌, Some, take, drop, IfOk, OnOk, IsErrOf};
ghost use Rattle.std.specs.Option.{ForSome};
ghost use Rattle.mv_values.specs.Counts.{Rose};

use crate::edge::{Failed, Source};
use mv_values::list::List;
use mv_values::memory::NoMemory;
use std::alloc::Global;

/// The most bytes that are read: one more than the longest input that is accepted.
pub const MOST: usize = 16_777_217;

/// The most bytes that are read at once.
const PIECE: usize = 4096;

/// Why reading a source failed.
#[derive(Clone, Copy, PartialEq, Eq)]
pub enum ReadFault {
    NoMemory,
    Failed,
}

impl From<Failed> for ReadFault {
    ghost use Rattle.std.specs.Prelude.{◌≡◌};
    ghost use Rattle.mv_edge.specs.declared.reading.ReadFault.TheVariants as fault;

    ghost from_gives = { λ _ e. e ≡ fault.Failed };

    fn from(_error: Failed) -> ReadFault {
        ReadFault::Failed
    }
}

impl From<NoMemory> for ReadFault {
    ghost use Rattle.std.specs.Prelude.{◌≡◌};
    ghost use Rattle.mv_edge.specs.declared.reading.ReadFault.TheVariants as fault;

    ghost from_gives = { λ _ e. e ≡ fault.NoMemory };

    fn from(_error: NoMemory) -> ReadFault {
        ReadFault::NoMemory
    }
}

/// Reads the bytes that are left in a source, at most `MOST`. The bytes after these stay in the source. Fails with
/// `NoMemory` if memory runs out, and with `Failed` if and only if the source's count of faults rises.
pub fn read_all<S: Source>(alloc: Global, source: &mut S) -> Result<List<u8>, ReadFault>
    ensures bytes { IfOk result (λ bytes. ForSome (S.left source.old) (λ all. bytes ≡ take MOST all)) }
    ensures rest { OnOk result (ForSome (S.left source.old) (λ all. S.left source.new ≡ Some (drop MOST all))) }
    ensures quiet { OnOk result (S.faults source.new ≡ S.faults source.old) }
    ensures starved { IsErrOf result ReadFault.NoMemory → S.faults source.new ≡ S.faults source.old }
    ensures failed { IsErrOf result ReadFault.Failed → Rose (S.faults source.old) (S.faults source.new) }
    ensures count { S.faults source.old ≤ S.faults source.new }
{
    let mut bytes = List::new(alloc);
    let mut buffer = [0u8; PIECE];
    while bytes.len() < MOST {
        let room = PIECE.min(MOST - bytes.len());
        let n = source.read(&mut buffer[..room])?;
        if n == 0 {
            return Ok(bytes);
        }
        bytes.append(&buffer[..n])?;
    }
    Ok(bytes)
}
