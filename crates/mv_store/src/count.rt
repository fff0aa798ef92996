//! Counts old versions.

ghost use Rattle.std.specs.Prelude.{◌≡◌, ◌^◌, ◌-◌, min};
ghost use Rattle.mv_store.specs.Stored.{commits_in, old_versions};

use mv_chain::chain::Chain;
use mv_table::key_map::KeyMap;

/// Returns how many old versions a table keeps, or `u64::MAX` if there are more.
fn count_in(table: &KeyMap<Chain>) -> u64
    ensures { result ≡ min (commits_in table.now) (2 ^ 64 - 1) }
{
    let mut count = 0u64;
    for (_, chain) in table.iter() {
        count = count.saturating_add(chain.commits() as u64);
    }
    count
}

/// Returns how many old versions the tables keep, or `u64::MAX` if there are more.
pub(crate) fn count_all(tables: &[KeyMap<Chain>]) -> u64
    ensures { result ≡ min (old_versions tables.now) (2 ^ 64 - 1) }
{
    let mut count = 0u64;
    for table in tables {
        count = count.saturating_add(count_in(table));
    }
    count
}
