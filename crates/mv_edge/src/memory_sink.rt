//! A sink in memory. It fails at listed calls and when it is full.

ghost use Rattle.std.specs.Prelude.{◌≡◌, ◌<◌, ◌≤◌, ◌+◌, ◌↔◌, ◌⊎◌, Some, Contains, take, [], length, min, IfOk, OnOk, OnErr, IsErr};
ghost use Rattle.mv_values.specs.Counts.{greatest_count, one_more, Rose};
ghost use Rattle.mv_edge.specs.Edge.{Writes};
ghost use Rattle.mv_edge.specs.Memory.{IsTooFull};

use crate::edge::{Failed, Sink};
use crate::fault_plan::FaultPlan;
use mv_values::list::List;
use mv_values::memory::NoMemory;
use std::alloc::Global;
use std::marker::Model;

/// A sink in memory with room for a fixed number of bytes. The listed calls fail. So does a write of a piece that isn't
/// empty while there is no room.
#[derive(Drop)]
pub struct MemorySink {
    bytes: Vec<u8>,
    size: usize,
    plan: FaultPlan,
}

impl Model for MemorySink {
    ghost use Rattle.std.specs.Prelude.{◌≤◌, ◌-◌, vec_len, vec_capacity};
    ghost use Rattle.mv_edge.specs.Memory.{SinkState};

    ghost Value = { SinkState };

    ghost view = { λ k. record { written = k.bytes.items; room = k.size - vec_len k.bytes; plan = k.plan } };

    ghost invariant = { λ k. (vec_len k.bytes ≤ k.size) × (k.size ≤ vec_capacity k.bytes) };
}

impl MemorySink {
    /// Returns an empty sink with room for `room` bytes. The calls whose numbers, from 0, are in `failing` will fail.
    /// Fails if memory runs out.
    pub fn new(alloc: Global, room: usize, failing: List<u64>) -> Result<MemorySink, NoMemory>
        ensures written { IfOk result (λ k. k.written ≡ []) }
        ensures room { IfOk result (λ k. k.room ≡ room) }
        ensures failing { IfOk result (λ k. k.plan.failing ≡ failing) }
        ensures calls { IfOk result (λ k. k.plan.calls ≡ 0) }
        ensures faults { IfOk result (λ k. k.plan.faults ≡ 0) }
    {
        let bytes = Vec::with_capacity(alloc, room)?;
        Ok(MemorySink {
            bytes,
            size: room,
            plan: FaultPlan::new(failing),
        })
    }

    /// Borrows the bytes written so far.
    pub fn written(&self) -> &[u8]
        ensures { result.now ≡ self.now.written }
    {
        self.bytes.as_slice()
    }
}

impl Sink for MemorySink {
    ghost written = { λ k. Some k.written };

    ghost faults = { λ k. k.plan.faults };

    /// Writes as much of the piece as there is room for and returns how much. Fails if and only if the number of the
    /// call is listed, or there is no room and the piece isn't empty. It allocates nothing.
    fn write(&mut self, piece: &[u8]) -> Result<usize, Failed>
        ensures within { IfOk result (λ n. n ≤ length piece.now) }
        ensures some { IfOk result (λ n. 0 < length piece.now → 0 < n) }
        ensures bytes { IfOk result (λ n. Writes (Some self.old.written) (Some self.new.written) (take n piece.now)) }
        ensures same { OnErr result (Some self.new.written ≡ Some self.old.written) }
        ensures failed { OnErr result (Rose self.old.plan.faults self.new.plan.faults) }
        ensures count { self.old.plan.faults ≤ self.new.plan.faults }
        ensures stays { self.old.plan.faults ≡ greatest_count → self.new.plan.faults ≡ greatest_count }
        ensures fails { IsErr result ↔ (Contains self.old.plan.failing self.old.plan.calls ⊎ IsTooFull self.old piece.now) }
        ensures takes { IfOk result (λ n. n ≡ min (length piece.now) self.old.room) }
        ensures room { self.new.room + length self.new.written ≡ self.old.room + length self.old.written }
        ensures calls { self.new.plan.calls ≡ one_more self.old.plan.calls }
        ensures failing { self.new.plan.failing ≡ self.old.plan.failing }
        ensures quiet { OnOk result (self.new.plan.faults ≡ self.old.plan.faults) }
        ensures fault { OnErr result (self.new.plan.faults ≡ one_more self.old.plan.faults) }
    {
        self.plan.call()?;
        let n = piece.len().min(self.size - self.bytes.len());
        if n == 0 && !piece.is_empty() {
            return Err(self.plan.fault());
        }
        match self.bytes.extend_from_slice(&piece[..n]) {
            Ok(()) => Ok(n),
            Err(_) => unreachable!(),
        }
    }
}
