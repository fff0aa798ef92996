//! The script of a run.

use mv_graph::graph::Graph;
use mv_values::calls::{Call, Options};
use mv_values::list::List;
use mv_values::rows::Database;

/// The script of a run: the graphs of the procedures, the calls, the opening database, and the options. A call names
/// its procedure by the number of its graph.
#[derive(Drop)]
pub struct CompiledScript {
    pub graphs: List<Graph>,
    pub calls: List<Call>,
    pub opening: Database,
    pub options: Options,
}
