//! Drops old versions and old changes.

ghost use Rattle.std.specs.Prelude.{◌≡◌, ◌≤◌, ◌+◌, ◌-◌, length, drop};
ghost use Rattle.mv_store.specs.Changes.{HasRaised};

use mv_changes::recent::Recent;
use mv_store::store::Store;

/// Drops the tables of a store before commit `low`, and the changes of the commits up to it. The number may not be below
/// the store's low or below that of the last `trim`, nor above that of the last commit with changes. Of each key the
/// store keeps one base and the later commits. A key without a row, later commits and uncommitted writes goes away.
/// Reads from `low` on and uncommitted writes are unaffected. It allocates no memory. Takes as long as `raise` and
/// `trim`.
pub fn collect(store: &mut Store, recent: &mut Recent, low: u32)
    requires low { store.old.low ≤ low }
    requires rises { recent.old.low ≤ low }
    requires within { low ≤ recent.old.low + length recent.old.commits }
    ensures raised { HasRaised low store.old store.new }
    ensures low { recent.new.low ≡ low }
    ensures changes { recent.new.commits ≡ drop (low - recent.old.low) recent.old.commits }
    ensures room { recent.old.room ≤ recent.new.room }
{
    store.raise(low);
    recent.trim(low);
}
