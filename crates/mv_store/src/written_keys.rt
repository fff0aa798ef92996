//! The keys that calls have written.

ghost use Rattle.std.specs.Prelude.{◌≡◌, ◌≤◌, ◌++◌, ◌∷◌, ℕ, [], false, OnOk, IfSome, IfNone, if◌then◌else◌, ◌==◌};
ghost use Rattle.std.specs.Option.{option_copied};
ghost use Rattle.mv_store.specs.Kept.{table_keys_of, noted_for, written_at, is_due, HasTableKey, KeepsTableKeys};

use mv_values::list::List;
use mv_values::memory::NoMemory;
use mv_values::value::Key;
use std::alloc::Global;
use std::collections::{BTreeMap, VecDeque};
use std::marker::Model;

/// A key of a table.
#[derive(Drop)]
pub(crate) struct TableKey {
    pub(crate) table: u8,
    pub(crate) key: Key,
}

/// The keys that a commit has written.
#[derive(Drop)]
pub(crate) struct Written {
    pub(crate) commit: u32,
    pub(crate) table_keys: List<TableKey>,
}

/// The keys of each call's uncommitted writes, and those of each commit that isn't collected. There is room to make each
/// call a commit.
#[derive(Drop)]
pub(crate) struct WrittenKeys {
    by_call: BTreeMap<u32, List<TableKey>>,
    by_commit: VecDeque<Written>,
}

impl Model for WrittenKeys {
    ghost use Rattle.std.specs.Prelude.{◌≤◌, ◌+◌, length};
    ghost use Rattle.std.specs.VecDeque.{deque_capacity};
    ghost use Rattle.mv_store.specs.Kept.{Noted};

    ghost Value = { Noted };

    ghost view = { λ s. record { calls = s.by_call.entries; commits = s.by_commit.items } };

    ghost invariant = { λ s. length s.by_call.entries + length s.by_commit.items ≤ deque_capacity s.by_commit };
}

impl WrittenKeys {
    /// Returns an empty set of keys. It allocates no memory.
    pub(crate) fn new(alloc: Global) -> WrittenKeys
        ensures { result ≡ record { calls = []; commits = [] } }
    {
        WrittenKeys {
            by_call: BTreeMap::new(alloc),
            by_commit: VecDeque::new(alloc),
        }
    }

    /// Notes a key for a call. Takes time logarithmic in the number of calls.
    pub(crate) fn note(
        &mut self,
        alloc: Global,
        call: u32,
        table_key: TableKey,
    ) -> Result<(), NoMemory>
        ensures kept { KeepsTableKeys self.old self.new }
        ensures noted { OnOk result (HasTableKey table_key.table table_key.key (table_keys_of self.new call)) }
    {
        if let Some(table_keys) = self.by_call.get_mut(&call) {
            return table_keys.push(table_key);
        }
        self.by_commit.reserve(self.by_call.len() + 1)?;
        let mut table_keys = List::new(alloc);
        table_keys.push(table_key)?;
        self.by_call.insert(call, table_keys)?;
        Ok(())
    }

    /// Returns the keys that are noted for a call. Takes time logarithmic in the number of calls.
    pub(crate) fn of_call(&self, call: u32) -> Option<&List<TableKey>>
        ensures { option_copied result ≡ noted_for self.now call }
    {
        self.by_call.get(&call)
    }

    /// Removes the keys of a call. Takes time logarithmic in the number of calls.
    pub(crate) fn forget(&mut self, call: u32)
        ensures calls { (other : ℕ) → table_keys_of self.new other ≡ (if call == other then [] else table_keys_of self.old other) }
        ensures commits { self.new.commits ≡ self.old.commits }
    {
        self.by_call.remove(&call);
    }

    /// Makes the keys of a call those of commit n. It allocates no memory. Takes time logarithmic in the number of
    /// calls.
    pub(crate) fn commit(&mut self, call: u32, n: u32)
        ensures calls { (other : ℕ) → table_keys_of self.new other ≡ (if call == other then [] else table_keys_of self.old other) }
        ensures commits { self.new.commits ≡ self.old.commits ++ written_at n (noted_for self.old call) }
    {
        if let Some(table_keys) = self.by_call.remove(&call) {
            self.by_commit.push_back_reserved(Written {
                commit: n,
                table_keys,
            });
        }
    }

    /// Whether the first commit has a number up to `low`.
    fn is_due(&self, low: u32) -> bool
        ensures { result ≡ is_due low self.now.commits }
    {
        match self.by_commit.front() {
            Some(written) => written.commit <= low,
            None => false,
        }
    }

    /// Removes the first commit and returns its keys, if its number is at most `low`. It allocates no memory.
    pub(crate) fn take_due(&mut self, low: u32) -> Option<Written>
        ensures calls { self.new.calls ≡ self.old.calls }
        ensures due { IfSome result (λ written. (written.commit ≤ low) × (self.old.commits ≡ written ∷ self.new.commits)) }
        ensures rest { IfNone result ((self.new.commits ≡ self.old.commits) × (is_due low self.old.commits ≡ false)) }
    {
        if !self.is_due(low) {
            return None;
        }
        self.by_commit.pop_front()
    }
}
