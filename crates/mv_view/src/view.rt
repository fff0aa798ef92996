//! The interface through which a procedure reads its tables.

ghost use Rattle.std.specs.Prelude.{◌≡◌, IfOk};
ghost use Rattle.mv_values.specs.Patching.{found_by, row_of};
ghost use Rattle.mv_values.specs.Preds.{matched};
ghost use Rattle.mv_values.specs.Tables.{rows_at};
ghost use Rattle.mv_table.specs.Scans.{foremost};
ghost use Rattle.mv_record.specs.Admitting.{Admitted};
ghost use Rattle.mv_view.specs.Narrowing.{outside};
ghost use Rattle.mv_view.specs.Viewing.{Sight, with_rows_call, with_row_call, answered, MayAnswer};

use crate::key_set::KeySet;
use mv_table::found::Found;
use mv_table::found_rows::FoundRows;
use mv_table::scan::Direction;
use mv_values::lent::Lent;
use mv_values::memory::NoMemory;
use mv_values::pred_ref::PredRef;
use mv_values::value::Key;
use std::alloc::Global;

/// Why a view returns no rows.
#[derive(Clone, Copy)]
pub enum Refused {
    /// Memory ran out.
    NoMemory,
    /// The rows as of `start` commits may be gone: the view keeps only rows as of `low` commits and later.
    Stale { start: u32, low: u32 },
}

impl From<NoMemory> for Refused {
    ghost use Rattle.std.specs.Prelude.{◌≡◌};
    ghost use Rattle.mv_view.specs.declared.view.Refused.TheVariants as refused;

    ghost from_gives = { λ _ e. e ≡ refused.NoMemory };

    fn from(_error: NoMemory) -> Refused {
        Refused::NoMemory
    }
}

/// A snapshot of a database, taken after some number of commits. A view may lose its snapshot: once only rows as of a
/// later commit are kept, it returns `Stale`. A row that it finds may be lent by what is behind the view, and may then
/// outlive the view.
pub trait View<'s> {
    /// Its database and start, whether it may return `Stale`, and its counts of `Stale` results and of calls. A count
    /// stops at `u64::MAX`.
    ghost sight: { Self → Sight };

    /// Returns the rows that the predicate matches, in key order. The predicate must admit the key of each such row.
    /// Fails if memory runs out, or with `Stale` if the snapshot may be gone.
    fn rows(&mut self, alloc: Global, pred: &PredRef<'_>) -> Result<FoundRows<'s>, Refused>
        requires { Admitted pred.now (rows_at (sight self.old).database pred.now.table) }
        ensures found { IfOk result (λ rows. rows ≡ found_by pred.now (sight self.old).database) }
        ensures counts { sight self.new ≡ answered result (with_rows_call (sight self.old)) }
        ensures stale { MayAnswer (sight self.old) (sight self.new) result };

    /// Returns the first row in this direction that the predicate matches and whose key isn't in `passed`, or `None` if
    /// there is no such row. The predicate must admit the key of each row that it matches. It counts as a call of
    /// `rows`. Fails if memory runs out, or with `Stale` if the snapshot may be gone.
    fn foremost<K: KeySet>(
        &mut self,
        alloc: Global,
        pred: &PredRef<'_>,
        direction: Direction,
        passed: &K,
    ) -> Result<Option<Found<'s>>, Refused>
        requires { Admitted pred.now (rows_at (sight self.old).database pred.now.table) }
        ensures found { IfOk result (λ row. row ≡ foremost direction (outside (K.has passed.now) (found_by pred.now (sight self.old).database))) }
        ensures counts { sight self.new ≡ answered result (with_rows_call (sight self.old)) }
        ensures stale { MayAnswer (sight self.old) (sight self.new) result };

    /// Returns the row with the key if the predicate matches it, or `None` if there is no such row. It is enough where
    /// no other row matches. It counts as a call of `rows`. Fails if memory runs out, or with `Stale` if the snapshot
    /// may be gone.
    fn match_under(
        &mut self,
        alloc: Global,
        pred: &PredRef<'_>,
        key: &Key,
    ) -> Result<Option<Lent<'s>>, Refused>
        ensures found { IfOk result (λ row. row ≡ matched pred.now (row_of (rows_at (sight self.old).database pred.now.table) key.now)) }
        ensures counts { sight self.new ≡ answered result (with_rows_call (sight self.old)) }
        ensures stale { MayAnswer (sight self.old) (sight self.new) result };

    /// Returns the row with the key, or `None` if there is none. Fails if memory runs out, or with `Stale` if the
    /// snapshot may be gone.
    fn row(&mut self, alloc: Global, table: u8, key: &Key) -> Result<Option<Lent<'s>>, Refused>
        ensures found { IfOk result (λ row. row ≡ row_of (rows_at (sight self.old).database table) key.now) }
        ensures counts { sight self.new ≡ answered result (with_row_call (sight self.old)) }
        ensures stale { MayAnswer (sight self.old) (sight self.new) result };
}
