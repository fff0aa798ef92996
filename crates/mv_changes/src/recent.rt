//! The changes of the last commits.

ghost use Rattle.std.specs.Prelude.{◌≡◌, ◌<◌, ◌≤◌, ◌+◌, ◌-◌, ◌∷◌, ◌++◌, [], length, drop, IsOk, OnOk, OnErr};
ghost use Rattle.std.specs.Vec.{vec_capacity};
ghost use Rattle.mv_changes.specs.Commits.{Window, changes_in, AreNumbered};

use crate::changes::Changes;
use mv_values::copied::Copied;
use mv_values::memory::NoMemory;
use std::alloc::Global;
use std::marker::Model;

/// A commit: its number, from 1, and its changes.
#[derive(Drop)]
pub struct Committed {
    pub commit: u32,
    pub changes: Changes,
}

impl Copied for Committed {
    fn copy(&self, alloc: Global) -> Result<Committed, NoMemory> {
        Ok(Committed {
            commit: self.commit,
            changes: self.changes.copy(alloc)?,
        })
    }
}

/// The changes of the commits after number `low`, which `trim` raises and `pass` sets. Contracts see `low`, the changes
/// of each commit after it, in order, and the room for more commits. The first item is commit `dropped + 1`; the commits
/// up to `low` are dropped when they are half of all stored commits.
#[derive(Drop)]
pub struct Recent {
    items: Vec<Committed>,
    dropped: u32,
    low: u32,
}

impl Model for Recent {
    ghost use Rattle.std.specs.Prelude.{◌-◌, ◌≤◌, ◌+◌, drop, length};
    ghost use Rattle.std.specs.Vec.{vec_capacity};
    ghost use Rattle.mv_changes.specs.Commits.{Window, changes_in, AreNumbered};

    ghost Value = { Window };

    ghost view = { λ r. record { low = r.low; commits = changes_in (drop (r.low - r.dropped) r.items.items); room = vec_capacity r.items - length r.items.items } };

    ghost invariant = { λ r. (r.dropped ≤ r.low) × (r.low ≤ r.dropped + length r.items.items) × AreNumbered (r.dropped + 1) r.items.items };
}

/// Returns the commits from an index on.
fn from(items: &[Committed], index: usize) -> &[Committed]
    ensures { result.now ≡ drop index items.now }
{
    if index < items.len() {
        &items[index..]
    } else {
        &[]
    }
}

/// Drops the first commits. Moves the others; allocates nothing.
fn drop_first(items: &mut Vec<Committed>, count: usize)
    requires { count ≤ length items.old.items }
    ensures items { items.new.items ≡ drop count items.old.items }
    ensures capacity { vec_capacity items.new ≡ vec_capacity items.old }
{
    let rest = items.len() - count;
    items.rotate_left(count);
    items.truncate(rest);
}

impl Recent {
    /// Returns no commits; the next one has number 1. Allocates nothing.
    pub fn new(alloc: Global) -> Recent
        ensures { result ≡ record { low = 0; commits = []; room = 0 } }
    {
        Recent {
            items: Vec::new(alloc),
            dropped: 0,
            low: 0,
        }
    }

    /// Makes room for this many more commits. Fails if memory runs out.
    pub fn reserve(&mut self, more: usize) -> Result<(), NoMemory>
        ensures low { self.new.low ≡ self.old.low }
        ensures commits { self.new.commits ≡ self.old.commits }
        ensures room { self.old.room ≤ self.new.room }
        ensures ok { OnOk result (more ≤ self.new.room) }
    {
        self.items.reserve(more)?;
        Ok(())
    }

    /// Adds a commit, which must have the next number. Fails if memory runs out, and then adds nothing. It never fails
    /// if there is room. Costs constant time.
    pub fn push(&mut self, commit: u32, changes: Changes) -> Result<(), NoMemory>
        requires { commit ≡ self.old.low + length self.old.commits + 1 }
        ensures low { self.new.low ≡ self.old.low }
        ensures ok { OnOk result (self.new.commits ≡ self.old.commits ++ changes ∷ []) }
        ensures err { OnErr result (self.new.commits ≡ self.old.commits) }
        ensures room { self.old.room ≤ self.new.room + 1 }
        ensures succeeds { 0 < self.old.room → IsOk result }
    {
        self.items.push(Committed { commit, changes })?;
        Ok(())
    }

    /// Drops all commits, and begins after number `commit`: the next one has the number after it. Allocates nothing.
    pub fn pass(&mut self, commit: u32)
        ensures low { self.new.low ≡ commit }
        ensures commits { self.new.commits ≡ [] }
        ensures room { self.old.room ≤ self.new.room }
    {
        self.items.truncate(0);
        self.dropped = commit;
        self.low = commit;
    }

    /// Borrows the commits after number `start`, in order. `start` may not be below the number of the last `trim` or
    /// `pass`. Costs constant time.
    pub fn since(&self, start: u32) -> &[Committed]
        requires { self.now.low ≤ start }
        ensures changes { changes_in result.now ≡ drop (start - self.now.low) self.now.commits }
        ensures numbers { AreNumbered (start + 1) result.now }
    {
        from(self.items.as_slice(), (start - self.dropped) as usize)
    }

    /// Drops the commits up to number `low`, which may not be below that of an earlier call, nor above that of the last
    /// commit. Allocates nothing. Costs, over many calls, constant time for each commit dropped.
    pub fn trim(&mut self, low: u32)
        requires rises { self.old.low ≤ low }
        requires within { low ≤ self.old.low + length self.old.commits }
        ensures low { self.new.low ≡ low }
        ensures commits { self.new.commits ≡ drop (low - self.old.low) self.old.commits }
        ensures room { self.old.room ≤ self.new.room }
    {
        self.low = low;
        let passed = (low - self.dropped) as usize;
        if passed * 2 >= self.items.len() {
            drop_first(&mut self.items, passed);
            self.dropped = low;
        }
    }
}
