//! From a text to its picture.

ghost use Rattle.std.specs.Prelude.{IfOk};
ghost use Rattle.mv_svg.specs.Xml.{IsDocument};

use crate::failure::Failure;
use mv_draw::diagram::draw_diagram;
use mv_draw::run::draw_run;
use mv_trace::graph::{is_graph, read_graph};
use mv_trace::statements::statements_of;
use mv_trace::trace::trace_of;
use mv_values::list::List;
use std::alloc::Global;

/// Returns the picture of the text of a run or of graphs.
pub fn draw(alloc: Global, text: &[u8], script: Option<&[u8]>) -> Result<List<u8>, Failure>
    ensures { IfOk result (λ text. ∥ IsDocument text ∥₁) }
{
    if is_graph(text) {
        return draw_graph(alloc, text, script);
    }
    let trace = trace_of(alloc, text, script)?;
    Ok(draw_run(alloc, &trace)?)
}

/// Returns the picture of the text of graphs, whose script must be there.
fn draw_graph(alloc: Global, text: &[u8], script: Option<&[u8]>) -> Result<List<u8>, Failure>
    ensures { IfOk result (λ text. ∥ IsDocument text ∥₁) }
{
    let Some(script) = script else {
        return Err(Failure::Words);
    };
    let procedures = read_graph(alloc, text)?;
    let statements = statements_of(alloc, script)?;
    Ok(draw_diagram(alloc, procedures.as_slice(), statements.as_slice())?)
}
