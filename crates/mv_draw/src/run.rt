//! Pictures of runs.

ghost use Rattle.std.specs.Prelude.{◌≤◌, length, IfOk};
ghost use Rattle.mv_svg.specs.Xml.{IsDocument};
ghost use Rattle.mv_draw.specs.Rows.{ShowsRows};

use crate::histogram::draw_histogram;
use crate::timeline::draw_time_line;
use mv_trace::trace::Trace;
use mv_values::list::List;
use mv_values::memory::NoMemory;
use std::alloc::Global;

/// The most calls that have rows of their own.
pub const MOST_ROWS: usize = 200;

/// Returns the picture of a run: a row for each call, or columns that count them where there are more than `MOST_ROWS`.
pub fn draw_run(alloc: Global, trace: &Trace) -> Result<List<u8>, NoMemory>
    ensures document { IfOk result (λ text. ∥ IsDocument text ∥₁) }
    ensures rows { length trace.now.calls ≤ MOST_ROWS → IfOk result (ShowsRows (length trace.now.calls)) }
{
    let events = trace.events.as_slice();
    let calls = trace.calls.as_slice();
    if calls.len() <= MOST_ROWS {
        draw_time_line(alloc, events, calls)
    } else {
        draw_histogram(alloc, events, calls)
    }
}
