//! Copies of whole databases.

ghost use Rattle.std.specs.Prelude.{◌≡◌, ◌≤◌, length, IfOk};
ghost use Rattle.mv_values.specs.Tables.{rows_at};
ghost use Rattle.mv_effect.specs.Looking.{OnlyAsks};

use mv_values::list::List;
use mv_values::pred_ref::PredRef;
use mv_values::rows::{Database, Rows};
use mv_view::view::{Refused, View};
use std::alloc::Global;

/// Copies the rows of a table that a view shows. Fails with `NoMemory` if memory runs out, and with `Stale` if the view
/// reports it.
fn rows_shown<'s, V: View<'s>>(alloc: Global, view: &mut V, table: u8) -> Result<Rows, Refused>
    ensures rows { IfOk result (λ rows. rows ≡ rows_at (V.sight view.old).database table) }
    ensures view { OnlyAsks (V.sight view.old) (V.sight view.new) result }
{
    let pred = PredRef::new(table, &[], &[]);
    let found = view.rows(alloc, &pred)?;
    Ok(found.into_rows(alloc)?)
}

/// Copies the database that a view shows, which has this many tables. Fails with `NoMemory` if memory runs out, and with
/// `Stale` if the view reports it.
pub(crate) fn tables_shown<'s, V: View<'s>>(
    alloc: Global,
    count: usize,
    view: &mut V,
) -> Result<Database, Refused>
    requires count { count ≡ length (V.sight view.old).database }
    requires few { length (V.sight view.old).database ≤ 64 }
    ensures tables { IfOk result (λ tables. tables ≡ (V.sight view.old).database) }
    ensures view { OnlyAsks (V.sight view.old) (V.sight view.new) result }
{
    let mut tables = List::with_room(alloc, count)?;
    for table in 0..count {
        tables.push(rows_shown(alloc, view, table as u8)?)?;
    }
    Ok(tables)
}
