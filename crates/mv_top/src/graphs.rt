//! The graphs of a program's procedures.

ghost use Rattle.std.specs.Prelude.{◌≡◌, IfOk};
ghost use Rattle.mv_record.specs.Databases.{IsProgram};
ghost use Rattle.mv_top.specs.Graphs.{graphs};

use mv_catalog::resolved::Program;
use mv_compile::compile::compile;
use mv_report::render_graphs::render_graphs;
use mv_values::list::List;
use mv_values::memory::NoMemory;
use std::alloc::Global;

/// Returns the text of which statements each statement of a program may depend on. Takes time quadratic in the number
/// of a procedure's statements.
pub(crate) fn graph_text(alloc: Global, program: &Program) -> Result<List<u8>, NoMemory>
    requires whole { IsProgram program.now }
    ensures { IfOk result (λ text. text ≡ graphs program.now) }
{
    let graphs = compile(alloc, &program.resolved)?;
    render_graphs(alloc, &program.resolved, &graphs)
}
