//! The position of a running call in its procedure.

ghost use Rattle.std.specs.Prelude.{◌≡◌, ◌<◌, ◌-◌, ◌++◌, ◌∷◌, [], None, nat_lt, length, slice_get, List, MatchOption};
ghost use Rattle.std.specs.Option.{option_copied};
ghost use Rattle.mv_catalog.specs.declared.resolved.RStmt.{RStmt};
ghost use Rattle.mv_graph.specs.Nodes.{IsGraph};
ghost use Rattle.mv_exec.specs.declared.frames.Frame.{Frame};
ghost use Rattle.mv_exec.specs.Frames.{has_turn, is_left, loop_rows, AreFilled, AreNumbered, IsNumbered, StaysTo};

use mv_graph::graph::{Graph, Step};
use mv_log::records::Records;
use mv_values::value::Row;

/// What holds a list of statements: the procedure, a branch of an IF, or a FOR. `record` is the number of the record of
/// the IF or FOR. `row` is the variable of a loop's row. `turn` is the number of the loop's turn, counted from 1. It is
/// 0 before the first turn.
#[derive(Clone, Copy)]
pub enum Holder {
    Procedure,
    Branch { record: u32, yes: bool },
    Loop { record: u32, row: u16, turn: usize },
}

/// A list of statements that a running call is in, and where it is there: before the statement `at`, counted from 0,
/// which has this number in the text of the procedure. The list's first statement has the number `first`.
#[derive(Clone, Copy)]
pub struct Frame {
    pub holder: Holder,
    pub first: usize,
    pub at: usize,
    pub number: usize,
}

/// Returns the rows of the loop whose FOR's record has this number.
pub(crate) fn rows_of<'a>(records: &Records<'a>, number: u32) -> &'a [Row]
    ensures { result.now ≡ loop_rows records.now number }
{
    if number as usize >= records.len() {
        return &[];
    }
    records.get(number as usize).rows()
}

/// Whether a loop has a turn after this one.
fn has_next_turn(records: &Records<'_>, holder: Holder) -> bool
    ensures { result ≡ has_turn records.now holder }
{
    match holder {
        Holder::Loop { record, turn, .. } => turn < rows_of(records, record).len(),
        _ => false,
    }
}

/// Returns the step of the statement with this number, counted from 1.
pub(crate) fn step_at(graph: &Graph, number: usize) -> Option<&Step>
    ensures { option_copied result ≡ slice_get graph.now.steps (number - 1) }
{
    graph.steps.as_slice().get(number.saturating_sub(1))
}

/// Whether a statement is left in its list from a frame on. Takes constant time.
pub(crate) fn is_before_end(graph: &Graph, frame: Frame) -> bool
    requires { IsGraph graph.now }
    ensures { (block : List RStmt) → IsNumbered graph.now.procedure block frame → 0 < length block → result ≡ nat_lt frame.at (length block) }
{
    match step_at(graph, frame.first) {
        Some(step) => frame.number.saturating_sub(frame.first) < step.left as usize,
        None => false,
    }
}

/// Whether a statement or a turn is left at a frame. Takes constant time.
fn has_left(graph: &Graph, records: &Records<'_>, frame: Frame) -> bool
    requires { IsGraph graph.now }
    ensures { (block : List RStmt) → IsNumbered graph.now.procedure block frame → 0 < length block → result ≡ is_left records.now block frame }
{
    is_before_end(graph, frame) || has_next_turn(records, frame.holder)
}

/// Returns the number of frames that stay. Nothing is left at the frames inside them. Takes time proportional to the
/// number of those.
pub(crate) fn staying(graph: &Graph, records: &Records<'_>, frames: &[Frame]) -> usize
    requires graph { IsGraph graph.now }
    requires filled { AreFilled graph.now.procedure None frames.now }
    requires numbers { AreNumbered graph.now.procedure None frames.now }
    ensures { StaysTo graph.now.procedure records.now frames.now (length frames.now) result }
{
    let Some((outer, last)) = innermost(frames) else {
        return 0;
    };
    if has_left(graph, records, last) {
        frames.len()
    } else {
        staying(graph, records, outer)
    }
}

/// Returns the frames around the innermost one.
pub(crate) fn outer(frames: &[Frame]) -> &[Frame]
    ensures { (outer : List Frame) (p : Frame) → frames.now ≡ outer ++ p ∷ [] → result.now ≡ outer }
{
    match frames {
        [] => &[],
        [outer @ .., _] => outer,
    }
}

/// Returns the innermost frame, after those around it.
pub(crate) fn innermost(frames: &[Frame]) -> Option<(&[Frame], Frame)>
    ensures { MatchOption result (frames.now ≡ []) (λ r. frames.now ≡ r.0.now ++ r.1 ∷ []) }
{
    match frames {
        [] => None,
        [outer @ .., last] => Some((outer, *last)),
    }
}
