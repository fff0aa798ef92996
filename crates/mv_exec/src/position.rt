//! The next statement of a running call.

ghost use Rattle.std.specs.Prelude.{◌≡◌, true, false};
ghost use Rattle.mv_graph.specs.Nodes.{IsGraph};
ghost use Rattle.mv_exec.specs.Ahead.{IsNextStep};
ghost use Rattle.mv_exec.specs.Frames.{has_turn, next_turn, frame_due};
ghost use Rattle.mv_exec.specs.Tasks.{IsTask};

use crate::frames::{Frame, Holder, innermost, is_before_end, rows_of, step_at};
use crate::task::Task;
use mv_graph::graph::{Graph, Step};
use mv_log::records::Records;

/// The step of the next statement of a call, and its frame. `turn` tells whether a loop's turn begins with it.
#[derive(Clone, Copy)]
pub(crate) struct Position<'g> {
    pub(crate) frame: Frame,
    pub(crate) turn: bool,
    pub(crate) step: &'g Step,
}

/// Returns the frame before the first statement of the next turn.
fn frame_in_next_turn(records: &Records<'_>, frame: Frame) -> Frame
    requires { has_turn records.now frame.holder ≡ true }
    ensures { result ≡ next_turn frame }
{
    let Holder::Loop { record, row, turn } = frame.holder else {
        return frame;
    };
    if rows_of(records, record).len() <= turn {
        return frame;
    }
    let holder = Holder::Loop {
        record,
        row,
        turn: turn + 1,
    };
    Frame {
        holder,
        first: frame.first,
        at: 0,
        number: frame.first,
    }
}

/// Returns the frame itself, or the one in the next turn if a turn is due.
fn frame_due(records: &Records<'_>, frame: Frame, turn: bool) -> Frame
    requires { turn ≡ true → has_turn records.now frame.holder ≡ true }
    ensures { result ≡ frame_due turn frame }
{
    if turn {
        frame_in_next_turn(records, frame)
    } else {
        frame
    }
}

/// Returns where a call continues. Takes constant time.
pub(crate) fn next_position<'g>(graph: &'g Graph, task: &Task) -> Position<'g>
    requires nodes { IsGraph graph.now }
    requires task { IsTask graph.now.procedure task.now }
    requires live { task.now.ended ≡ false }
    ensures { IsNextStep graph.now.procedure task.now result.frame result.step.now result.turn }
{
    let Some((_, last)) = innermost(task.frames.as_slice()) else {
        unreachable!();
    };
    let turn = !is_before_end(graph, last);
    let frame = frame_due(&task.log.records(), last, turn);
    let Some(step) = step_at(graph, frame.number) else {
        unreachable!();
    };
    Position { frame, turn, step }
}
