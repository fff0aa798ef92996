//! Writing all of some bytes.

ghost use Rattle.std.specs.Prelude.{◌≡◌, ◌≤◌, OnOk, OnErr};
ghost use Rattle.mv_values.specs.Counts.{Rose};
ghost use Rattle.mv_edge.specs.Edge.{Writes, WritesFront};

use crate::edge::{Failed, Sink};

/// Writes all the bytes. Fails if and only if the sink's count of faults rises, and then has written a proper prefix of
/// the bytes. It allocates nothing.
pub fn write_all<K: Sink>(sink: &mut K, bytes: &[u8]) -> Result<(), Failed>
    ensures all { OnOk result (Writes (K.written sink.old) (K.written sink.new) bytes.now) }
    ensures quiet { OnOk result (K.faults sink.new ≡ K.faults sink.old) }
    ensures front { OnErr result (WritesFront (K.written sink.old) (K.written sink.new) bytes.now) }
    ensures failed { OnErr result (Rose (K.faults sink.old) (K.faults sink.new)) }
    ensures count { K.faults sink.old ≤ K.faults sink.new }
{
    let mut at = 0usize;
    while at < bytes.len() {
        at += sink.write(&bytes[at..])?;
    }
    Ok(())
}
