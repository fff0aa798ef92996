//! The changes of one commit.

ghost use Rattle.std.specs.Prelude.{◌≡◌, ◌==◌, ◌≤◌, length, slice_range, IfOk};
ghost use Rattle.std.specs.List.{filter};
ghost use Rattle.mv_history.specs.Changes.{InOrder};
ghost use Rattle.mv_changes.specs.Tables.{IsCut, is_below};

use mv_history::change::Change;
use mv_values::copied::Copied;
use mv_values::list::List;
use mv_values::memory::NoMemory;
use std::alloc::Global;
use std::marker::Model;
use std::sync::Arc;

/// The changes of a commit, in the order of their tables and keys, each key once. Copies share them. Contracts see them as
/// a list.
#[derive(Drop)]
pub struct Changes {
    items: Arc<List<Change>, Global>,
}

impl Model for Changes {
    ghost use Rattle.std.specs.Prelude.{List as Seq};
    ghost use Rattle.std.specs.Arc.{arc_value};
    ghost use Rattle.mv_history.specs.declared.change.Change.{Change};
    ghost use Rattle.mv_history.specs.Changes.{InOrder};

    ghost Value = { Seq Change };

    ghost view = { λ c. arc_value c.items };

    ghost invariant = { λ c. InOrder (arc_value c.items) };
}

/// Counts the changes of lower tables. Costs the logarithm of the number of changes.
fn count_below(items: &[Change], table: u16) -> usize
    requires { InOrder items.now }
    ensures within { result ≤ length items.now }
    ensures cut { IsCut (is_below table) items.now result }
{
    items.partition_point(
        |change: &Change| -> bool
            ensures { result ≡ is_below table change.now }
        { (change.table as u16) < table },
    )
}

/// Returns the changes from index `from` up to `to`.
fn part(items: &[Change], from: usize, to: usize) -> &[Change]
    requires order { from ≤ to }
    requires within { to ≤ length items.now }
    ensures { result.now ≡ slice_range items.now from to }
{
    &items[from..to]
}

impl Changes {
    /// Returns these changes. Fails with `NoMemory` if memory runs out.
    pub fn of(alloc: Global, items: List<Change>) -> Result<Changes, NoMemory>
        requires { InOrder items }
        ensures { IfOk result (λ changes. changes ≡ items) }
    {
        let items = Arc::new(alloc, items)?;
        Ok(Changes { items })
    }

    /// Borrows the changes.
    pub fn as_slice(&self) -> &[Change]
        ensures items { result.now ≡ self.now }
        ensures order { InOrder self.now }
    {
        self.items.as_slice()
    }

    /// Borrows the changes of a table. Costs the logarithm of the number of changes.
    pub fn of_table(&self, table: u8) -> &[Change]
        ensures { result.now ≡ filter (λ c. c.table == table) self.now }
    {
        let items = self.items.as_slice();
        let from = count_below(items, table as u16);
        let to = count_below(items, table as u16 + 1);
        part(items, from, to)
    }
}

impl Copied for Changes {
    fn copy(&self, _alloc: Global) -> Result<Changes, NoMemory> {
        let items = Arc::try_clone(&self.items)?;
        Ok(Changes { items })
    }
}
