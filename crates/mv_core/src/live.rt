//! Which calls are live.

ghost use Rattle.std.specs.Prelude.{◌≡◌, ◌<◌, ◌↔◌, ◌++◌, ◌∷◌, [], All, IsTrue, OnOk, OnErr, length, map};
ghost use Rattle.mv_core.specs.Calls.{live_of};
ghost use Rattle.mv_core.specs.Lives.{without, least_start};

use crate::progress::Progress;
use mv_values::memory::NoMemory;
use std::alloc::Global;
use std::collections::BTreeSet;
use std::marker::Model;

/// The numbers of the live calls. Contracts see them in order.
#[derive(Drop)]
pub(crate) struct LiveCalls {
    numbers: BTreeSet<u32>,
}

impl Model for LiveCalls {
    ghost use Rattle.std.specs.Prelude.{List as Seq, ℕ};

    ghost Value = { Seq ℕ };

    ghost view = { λ l. l.numbers.keys };
}

impl LiveCalls {
    /// Returns an empty set. It allocates no memory.
    pub(crate) fn new(alloc: Global) -> LiveCalls
        ensures { result ≡ [] }
    {
        LiveCalls {
            numbers: BTreeSet::new(alloc),
        }
    }

    /// Adds a call. Its number must be above those of all others.
    pub(crate) fn push(&mut self, call: u32) -> Result<(), NoMemory>
        requires { All (λ c. c < call) self.old }
        ensures ok { OnOk result (self.new ≡ self.old ++ call ∷ []) }
        ensures err { OnErr result (self.new ≡ self.old) }
    {
        self.numbers.insert(call)?;
        Ok(())
    }

    /// Removes a call. It allocates no memory.
    pub(crate) fn remove(&mut self, call: u32)
        ensures { self.new ≡ without call self.old }
    {
        self.numbers.remove(&call);
    }

    /// Whether this call is live, and no other is.
    pub(crate) fn is_only(&self, call: u32) -> bool
        ensures { IsTrue result ↔ (self.now ≡ call ∷ []) }
    {
        self.numbers.len() == 1 && self.numbers.contains(&call)
    }

    /// Returns the least start of these calls, or n.
    pub(crate) fn oldest_start(&self, calls: &[Progress], n: u32) -> u32
        requires { All (λ c. c < length calls.now) self.now }
        ensures { result ≡ least_start n (map live_of calls.now) self.now }
    {
        let mut oldest = n;
        for call in self.numbers.iter() {
            oldest = oldest.min(calls[*call as usize].start);
        }
        oldest
    }
}
