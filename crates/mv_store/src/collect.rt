//! Drops old versions.

ghost use Rattle.std.specs.Prelude.{ℕ};
ghost use Rattle.mv_store.specs.Indexed.{IsIndexOf};
ghost use Rattle.mv_store.specs.Kept.{AreKeptVersions, AreCollected};

use crate::change::{VersionChange, change_all};
use crate::entries::ValueIndex;
use crate::written_keys::WrittenKeys;
use mv_chain::chain::Chain;
use mv_table::key_map::KeyMap;

/// Drops the rows of all tables before commit `low`, and the keys that have no versions left. It visits only the keys
/// that the commits up to `low` have written, and forgets them. It allocates no memory. Takes time logarithmic in the
/// number of rows for each of these keys.
pub(crate) fn collect_all(
    tables: &mut Vec<KeyMap<Chain>>,
    index: &mut ValueIndex,
    table_keys: &mut WrittenKeys,
    low: u32,
)
    ensures index { IsIndexOf tables.old.items index.old → IsIndexOf tables.new.items index.new }
    ensures versions { (last : ℕ) → AreKeptVersions tables.old.items table_keys.old last → AreCollected low tables.old.items tables.new.items × AreKeptVersions tables.new.items table_keys.new last }
{
    while let Some(written) = table_keys.take_due(low) {
        change_all(
            tables,
            index,
            written.table_keys.as_slice(),
            VersionChange::Collect(low),
        );
    }
}
