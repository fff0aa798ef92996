//! A source in memory. It fails at listed calls.

ghost use Rattle.std.specs.Prelude.{◌≡◌, ◌<◌, ◌≤◌, ◌↔◌, Some, Contains, take, length, min, IfOk, OnOk, OnErr, IsErr};
ghost use Rattle.mv_values.specs.Counts.{greatest_count, one_more, Rose};
ghost use Rattle.mv_edge.specs.Edge.{Reads, IsAtEnd};

use crate::edge::{Failed, Source};
use crate::fault_plan::FaultPlan;
use mv_values::list::List;
use std::marker::Model;

/// A source of bytes in memory. The listed calls fail.
#[derive(Drop)]
pub struct MemorySource {
    bytes: List<u8>,
    at: usize,
    plan: FaultPlan,
}

impl Model for MemorySource {
    ghost use Rattle.std.specs.Prelude.{◌≤◌, drop, length};
    ghost use Rattle.mv_edge.specs.Memory.{SourceState};

    ghost Value = { SourceState };

    ghost view = { λ s. record { left = drop s.at s.bytes; plan = s.plan } };

    ghost invariant = { λ s. s.at ≤ length s.bytes };
}

impl MemorySource {
    /// Returns a source of these bytes. The calls whose numbers, from 0, are in `failing` will fail. It allocates
    /// nothing.
    pub fn new(bytes: List<u8>, failing: List<u64>) -> MemorySource
        ensures left { result.left ≡ bytes }
        ensures failing { result.plan.failing ≡ failing }
        ensures calls { result.plan.calls ≡ 0 }
        ensures faults { result.plan.faults ≡ 0 }
    {
        MemorySource {
            bytes,
            at: 0,
            plan: FaultPlan::new(failing),
        }
    }
}

impl Source for MemorySource {
    ghost left = { λ s. Some s.left };

    ghost faults = { λ s. s.plan.faults };

    /// Reads as many bytes as are left and fit in the buffer, and returns their number. Fails if and only if the number
    /// of the call is listed, and then reads nothing.
    fn read(&mut self, buffer: &mut [u8]) -> Result<usize, Failed>
        ensures within { IfOk result (λ n. n ≤ length buffer.old) }
        ensures bytes { IfOk result (λ n. 0 < length buffer.old → Reads (Some self.old.left) (Some self.new.left) (take n buffer.new)) }
        ensures end { IfOk result (λ n. 0 < length buffer.old → n ≡ 0 → IsAtEnd (Some self.old.left)) }
        ensures failed { OnErr result (Rose self.old.plan.faults self.new.plan.faults) }
        ensures count { self.old.plan.faults ≤ self.new.plan.faults }
        ensures stays { self.old.plan.faults ≡ greatest_count → self.new.plan.faults ≡ greatest_count }
        ensures fails { IsErr result ↔ Contains self.old.plan.failing self.old.plan.calls }
        ensures takes { IfOk result (λ n. n ≡ min (length buffer.old) (length self.old.left)) }
        ensures keeps { OnErr result (self.new.left ≡ self.old.left) }
        ensures calls { self.new.plan.calls ≡ one_more self.old.plan.calls }
        ensures failing { self.new.plan.failing ≡ self.old.plan.failing }
        ensures quiet { OnOk result (self.new.plan.faults ≡ self.old.plan.faults) }
        ensures fault { OnErr result (self.new.plan.faults ≡ one_more self.old.plan.faults) }
    {
        self.plan.call()?;
        let n = buffer.len().min(self.bytes.len() - self.at);
        let next = &self.bytes.as_slice()[self.at..self.at + n];
        buffer[..n].copy_from_slice(next);
        self.at += n;
        Ok(n)
    }
}
