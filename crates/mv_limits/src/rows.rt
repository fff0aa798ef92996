//! Limits of tables, parameters and arguments.

ghost use Rattle.std.specs.Prelude.{◌≡◌, map};
ghost use Rattle.mv_ast.specs.Limits.{soonest, together, row_passes, table_passes, param_passes, argument_passes};

use crate::best::too_many;
use crate::statements::COLUMNS;
use mv_ast::limit::{PassedLimit, Which};
use mv_ast::tree::{Arg, LitRow, Param, ParamKind, TableDef};

/// The most key columns of a table.
const KEY: usize = 8;

/// The most rows of one ROWS argument.
const ROWS: usize = 1000;

/// Returns whichever comes first: `best`, or a limit passed in the literal rows.
fn in_rows(best: Option<PassedLimit>, rows: &[LitRow]) -> Option<PassedLimit>
    ensures { result ≡ soonest best (together (map row_passes rows.now)) }
{
    let mut best = best;
    for row in rows {
        best = too_many(best, Which::Columns, COLUMNS, row.values.as_slice());
    }
    best
}

/// Returns whichever comes first: `best`, or a limit passed in the table.
#[tactic(auto, using(crate::proofs::Joining::soonest_joined))]
pub(crate) fn in_table(best: Option<PassedLimit>, table: &TableDef) -> Option<PassedLimit>
    ensures { result ≡ soonest best (table_passes table.now) }
{
    let best = too_many(best, Which::Columns, COLUMNS, table.columns.as_slice());
    let best = too_many(best, Which::Key, KEY, table.key.as_slice());
    in_rows(best, table.rows.as_slice())
}

/// Returns whichever comes first: `best`, or a limit passed in the parameter.
#[tactic(auto, unfolding(mv_ast::specs::Limits::soonest))]
fn in_param(best: Option<PassedLimit>, param: &Param) -> Option<PassedLimit>
    ensures { result ≡ soonest best (param_passes param.now) }
{
    match &param.kind {
        ParamKind::One(_) => best,
        ParamKind::Many(columns) => { too_many(best, Which::Columns, COLUMNS, columns.as_slice()) }
    }
}

/// Returns whichever comes first: `best`, or a limit passed in the parameters.
pub(crate) fn in_params(best: Option<PassedLimit>, params: &[Param]) -> Option<PassedLimit>
    ensures { result ≡ soonest best (together (map param_passes params.now)) }
{
    let mut best = best;
    for param in params {
        best = in_param(best, param);
    }
    best
}

/// Returns whichever comes first: `best`, or a limit passed in the argument.
#[tactic(auto, using(crate::proofs::Joining::soonest_joined), unfolding(mv_ast::specs::Limits::soonest))]
fn in_argument(best: Option<PassedLimit>, argument: &Arg) -> Option<PassedLimit>
    ensures { result ≡ soonest best (argument_passes argument.now) }
{
    match argument {
        Arg::One(_) => best,
        Arg::Many(rows) => {
            let rows = rows.rows.as_slice();
            let best = too_many(best, Which::Rows, ROWS, rows);
            in_rows(best, rows)
        }
    }
}

/// Returns whichever comes first: `best`, or a limit passed in the arguments.
pub(crate) fn in_arguments(best: Option<PassedLimit>, arguments: &[Arg]) -> Option<PassedLimit>
    ensures { result ≡ soonest best (together (map argument_passes arguments.now)) }
{
    let mut best = best;
    for argument in arguments {
        best = in_argument(best, argument);
    }
    best
}
