//! Where a statement is executed.

use mv_eval::state::Env;
use mv_values::schema::TableInfo;

/// Where a statement is executed: the tables, and the variables before it. It sees the own writes of records with smaller
/// numbers than its own, which stand in the log of its call.
#[derive(Drop)]
pub(crate) struct Context<'a> {
    pub(crate) tables: &'a [TableInfo],
    pub(crate) env: &'a Env,
    pub(crate) number: usize,
}
