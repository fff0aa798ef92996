//! What a statement is executed on.

use mv_eval::state::Env;
use mv_table::table::Tables;
use mv_values::schema::TableInfo;

/// What a statement sees: the tables of its program, its variables and the database before it.
#[derive(Clone, Copy)]
pub(crate) struct Scene<'a> {
    pub infos: &'a [TableInfo],
    pub env: &'a Env,
    pub tables: &'a Tables,
}
