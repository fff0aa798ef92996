//! Laws about dumps and blocks.

ghost use Rattle.mv_values.specs.Keys.{IsRising};
ghost use Rattle.mv_csvio.specs.Csv.{rows_csv};
ghost use Rattle.mv_csvio.specs.Fitting.{AllFit};
ghost use Rattle.mv_csvio.specs.Loading.{HasLoaded, records_of};
ghost use Rattle.std.specs.Prelude.{[], List};
ghost use Rattle.mv_values.specs.declared.rows.Keyed.{Keyed};
ghost use Rattle.mv_values.specs.declared.schema.TableInfo.{TableInfo};

/// Loading a dump restores its rows: if the rows fit their table, loading their CSV into an empty table gives the same
/// rows.
pub fn dumps_load_again()
    ensures { (table : TableInfo) (rows : List Keyed) → IsRising rows → AllFit table rows → HasLoaded table [] (records_of (rows_csv rows)) rows }
{}
