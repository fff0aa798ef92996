//! The totals of groups.

ghost use Rattle.std.specs.Prelude.{◌≡◌, IfOk, length};
ghost use Rattle.std.specs.Option.{option_copied};
ghost use Rattle.mv_tpccsum.specs.Grouping.{IsGroups, IsSmall, entries_of, with_number};

use crate::columns::{Numbers, key_at, number_at, plus};
use mv_table::key_map::KeyMap;
use mv_values::memory::NoMemory;
use std::alloc::Global;

/// The totals of a group that isn't empty.
#[derive(Clone, Copy)]
pub(crate) struct Totals {
    pub(crate) sum: i128,
    pub(crate) least: i64,
    pub(crate) most: i64,
    pub(crate) count: usize,
}

/// Returns the totals of each group. The time for each number is logarithmic in the number of groups.
pub(crate) fn totals_of(alloc: Global, numbers: &Numbers<'_>) -> Result<KeyMap<Totals>, NoMemory>
    ensures { IfOk result (IsGroups (length numbers.now.rows.now) (entries_of numbers.now)) }
{
    let mut groups = KeyMap::new(alloc);
    for item in numbers.rows {
        let key = key_at(alloc, item.row.as_slice(), numbers.key.as_slice())?;
        let number = number_at(item.row.as_slice(), numbers.place);
        let totals = with_number(groups.get(&key), number);
        groups.put(key, totals)?;
    }
    Ok(groups)
}

/// Returns the totals with one more number.
fn with_number(before: Option<&Totals>, number: i64) -> Totals
    requires { IsSmall (option_copied before) }
    ensures { result ≡ with_number (option_copied before.entry) number }
{
    match before {
        None => Totals {
            sum: number as i128,
            least: number,
            most: number,
            count: 1,
        },
        Some(totals) => Totals {
            sum: plus(totals.sum, number),
            least: totals.least.min(number),
            most: totals.most.max(number),
            count: totals.count + 1,
        },
    }
}
