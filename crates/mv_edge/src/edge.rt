//! Sources and sinks of bytes.

ghost use Rattle.std.specs.Prelude.{◌≡◌, ◌<◌, ◌≤◌, ℕ, List, Option, length, take, IfOk, OnOk, OnErr};
ghost use Rattle.mv_values.specs.Counts.{greatest_count, Rose};
ghost use Rattle.mv_edge.specs.Edge.{Reads, IsAtEnd, Writes};

/// A read or a write failed.
#[derive(Clone, Copy, PartialEq, Eq)]
pub struct Failed;

/// A source of bytes, read piece by piece.
pub trait Source {
    /// The bytes that are left, or `None` if the source doesn't tell them.
    ghost left: { Self → Option (List ℕ) };

    /// The number of failures so far. It never falls, and stops at the greatest `u64`.
    ghost faults: { Self → ℕ };

    /// Reads the next bytes into the front of the buffer and returns their number. If the buffer isn't empty, 0 means
    /// the end. Fails if and only if the count of faults rises. It allocates nothing.
    fn read(&mut self, buffer: &mut [u8]) -> Result<usize, Failed>
        ensures within { IfOk result (λ n. n ≤ length buffer.old) }
        ensures bytes { IfOk result (λ n. 0 < length buffer.old → Reads (left self.old) (left self.new) (take n buffer.new)) }
        ensures end { IfOk result (λ n. 0 < length buffer.old → n ≡ 0 → IsAtEnd (left self.old)) }
        ensures quiet { OnOk result (faults self.new ≡ faults self.old) }
        ensures failed { OnErr result (Rose (faults self.old) (faults self.new)) }
        ensures count { faults self.old ≤ faults self.new }
        ensures stays { faults self.old ≡ greatest_count → faults self.new ≡ greatest_count };
}

/// A sink of bytes, written piece by piece.
pub trait Sink {
    /// The bytes written so far, or `None` if the sink doesn't tell them.
    ghost written: { Self → Option (List ℕ) };

    /// The number of failures so far. It never falls, and stops at the greatest `u64`.
    ghost faults: { Self → ℕ };

    /// Writes a prefix of the piece and returns its length, which is at least 1 unless the piece is empty. Fails if and
    /// only if the count of faults rises, and then writes nothing. It allocates nothing.
    fn write(&mut self, piece: &[u8]) -> Result<usize, Failed>
        ensures within { IfOk result (λ n. n ≤ length piece.now) }
        ensures some { IfOk result (λ n. 0 < length piece.now → 0 < n) }
        ensures bytes { IfOk result (λ n. Writes (written self.old) (written self.new) (take n piece.now)) }
        ensures quiet { OnOk result (faults self.new ≡ faults self.old) }
        ensures same { OnErr result (written self.new ≡ written self.old) }
        ensures failed { OnErr result (Rose (faults self.old) (faults self.new)) }
        ensures count { faults self.old ≤ faults self.new }
        ensures stays { faults self.old ≡ greatest_count → faults self.new ≡ greatest_count };
}
