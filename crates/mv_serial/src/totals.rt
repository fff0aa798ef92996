//! Executes SELECT with an aggregate.

ghost use Rattle.std.specs.Prelude.{◌≡◌, All, OnOk};
ghost use Rattle.mv_values.specs.Tables.{KeysStand};
ghost use Rattle.mv_catalog.specs.Text.{IsTable};
ghost use Rattle.mv_eval.specs.Results.{Leaves};
ghost use Rattle.mv_eval.specs.Alone.{sum_up, totalled};
ghost use Rattle.mv_eval.specs.Env.{with_found};

use mv_catalog::resolved::{RAgg, RCond};
use mv_eval::env::{set_found, set_value};
use mv_eval::extremes::total_of;
use mv_eval::find::tests_from;
use mv_eval::state::{Env, State, Stop};
use mv_values::memory::NoMemory;
use mv_values::schema::TableInfo;
use mv_values::value::Value;
use std::alloc::Global;

/// Stores a total, where there is one, and `:found`.
fn store_total(env: &mut Env, to: u16, total: Option<Value>, found: bool) -> Result<(), NoMemory>
    ensures { OnOk result (env.new ≡ with_found (totalled to total env.old) found) }
{
    match total {
        None => set_found(env, found),
        Some(v) => {
            set_value(env, to, v)?;
            set_found(env, found)
        }
    }
}

/// Executes SELECT with an aggregate.
pub(crate) fn run_total(
    alloc: Global,
    infos: &[TableInfo],
    agg: RAgg,
    to: u16,
    table: u16,
    conds: &[RCond],
    state: &mut State,
) -> Result<(), Stop>
    requires keys { KeysStand infos.now state.old.tables }
    requires each { All IsTable infos.now }
    ensures tables { state.new.tables ≡ state.old.tables }
    ensures does { Leaves result state.new (sum_up infos.now agg to table conds.now state.old) }
{
    let tests = tests_from(alloc, infos, table, conds, &state.env)?;
    let (value, found) = total_of(alloc, infos, &state.tables, agg, table, tests.as_slice())?;
    store_total(&mut state.env, to, value, found)?;
    Ok(())
}
