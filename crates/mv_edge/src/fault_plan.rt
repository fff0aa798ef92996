//! Plans of failing calls, for sources and sinks in memory.

ghost use Rattle.std.specs.Prelude.{◌≡◌, ◌≤◌, ◌↔◌, Contains, IsTrue, IsErr, OnOk, OnErr};
ghost use Rattle.mv_values.specs.Counts.{one_more, Rose};

use crate::edge::Failed;
use mv_values::list::List;

/// The numbers of the calls that fail, counted from 0, and how many calls and faults there were so far. Both counts
/// stop at the greatest `u64`.
#[derive(Drop)]
pub struct FaultPlan {
    pub failing: List<u64>,
    pub calls: u64,
    pub faults: u64,
}

impl FaultPlan {
    /// Returns a plan before its first call.
    pub fn new(failing: List<u64>) -> FaultPlan
        ensures failing { result.failing ≡ failing }
        ensures calls { result.calls ≡ 0 }
        ensures faults { result.faults ≡ 0 }
    {
        FaultPlan {
            failing,
            calls: 0,
            faults: 0,
        }
    }

    /// Counts a call. Fails, and counts a fault, if and only if `failing` contains the number of the call. The cost is
    /// linear in the length of that list.
    pub fn call(&mut self) -> Result<(), Failed>
        ensures fails { IsErr result ↔ Contains self.old.failing self.old.calls }
        ensures calls { self.new.calls ≡ one_more self.old.calls }
        ensures failing { self.new.failing ≡ self.old.failing }
        ensures ok { OnOk result (self.new.faults ≡ self.old.faults) }
        ensures err { OnErr result (self.new.faults ≡ one_more self.old.faults) }
        ensures rises { OnErr result (Rose self.old.faults self.new.faults) }
        ensures count { self.old.faults ≤ self.new.faults }
    {
        let call = self.calls;
        self.calls = call.saturating_add(1);
        if is_listed(self.failing.as_slice(), call) {
            Err(self.fault())
        } else {
            Ok(())
        }
    }

    /// Counts a fault and returns it.
    pub fn fault(&mut self) -> Failed
        ensures fault { self.new ≡ record self.old { faults = one_more self.old.faults } }
        ensures rises { Rose self.old.faults self.new.faults }
        ensures count { self.old.faults ≤ self.new.faults }
    {
        self.faults = self.faults.saturating_add(1);
        Failed
    }
}

fn is_listed(failing: &[u64], call: u64) -> bool
    ensures { IsTrue result ↔ Contains failing.now call }
{
    failing.contains(&call)
}
