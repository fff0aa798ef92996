//! Changes between databases, and the hits that validation finds.

ghost use Rattle.std.specs.Prelude.{◌≡◌, IfOk};
ghost use Rattle.mv_history.specs.Changes.{changed_more, is_same};

use mv_record::applying::patch_row;
use mv_values::copied::Copied;
use mv_values::memory::NoMemory;
use mv_values::patch::Write;
use mv_values::value::{Key, Row, compare_keys};
use std::alloc::Global;

/// A key whose row a commit changed, with the row before and the row after the commit. The two rows differ. At most one
/// is absent.
#[derive(Drop)]
pub struct Change {
    pub table: u8,
    pub key: Key,
    pub before: Option<Row>,
    pub after: Option<Row>,
}

/// What validation finds: the number of the first record that is hit, and of the first commit that hits it.
#[derive(Clone, Copy)]
pub struct Hit {
    pub number: usize,
    pub commit: u32,
}

/// Returns a copy of the row, if any.
fn copy_row(row: &Option<Row>, alloc: Global) -> Result<Option<Row>, NoMemory>
    ensures { IfOk result (λ copy. copy ≡ row.now) }
{
    match row {
        None => Ok(None),
        Some(row) => Ok(Some(row.copy(alloc)?)),
    }
}

/// Whether a row is unchanged: both are absent, or both are there with the same values.
pub fn is_same(before: &Option<Row>, after: &Option<Row>) -> bool
    ensures { result ≡ is_same before.now after.now }
{
    match (before, after) {
        (Some(before), Some(after)) => compare_keys(before.as_slice(), after.as_slice()).is_eq(),
        (None, None) => true,
        _ => false,
    }
}

/// Returns the change with one more write of its row. Fails if memory runs out.
pub fn next_change(alloc: Global, change: Change, write: &Write) -> Result<Change, NoMemory>
    ensures { IfOk result (λ next. next ≡ changed_more write.now change) }
{
    let after = patch_row(alloc, &write.patch, change.after.as_ref())?;
    Ok(Change {
        table: change.table,
        key: change.key,
        before: change.before,
        after,
    })
}

impl Copied for Change {
    fn copy(&self, alloc: Global) -> Result<Change, NoMemory> {
        let key = self.key.copy(alloc)?;
        let before = copy_row(&self.before, alloc)?;
        let after = copy_row(&self.after, alloc)?;
        Ok(Change {
            table: self.table,
            key,
            before,
            after,
        })
    }
}
