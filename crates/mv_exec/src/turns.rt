//! The turns of loops.

ghost use Rattle.std.specs.Prelude.{◌≡◌, ◌++◌, ◌∷◌, [], List, OnOk, OnErr};
ghost use Rattle.mv_exec.specs.Frames.{with_next_row};
ghost use Rattle.mv_exec.specs.Tasks.{in_turn_at, task_at};
ghost use Rattle.mv_exec.specs.declared.frames.Frame.{Frame};

use crate::frames::{Frame, Holder, innermost, rows_of};
use crate::task::Task;
use crate::variables::Variables;
use mv_eval::state::Content;
use mv_log::records::Records;
use mv_values::copied::Copied;
use mv_values::list::List;
use mv_values::memory::NoMemory;
use std::alloc::Global;

/// Sets the row of a loop to that of the next turn. On `NoMemory` the variables are unchanged.
fn set_row(
    alloc: Global,
    variables: &mut Variables,
    records: &Records<'_>,
    holder: Holder,
) -> Result<(), NoMemory>
    ensures ok { OnOk result (variables.new ≡ (let was = variables.old in record was { env = with_next_row records.now holder was.env })) }
    ensures err { OnErr result (variables.new ≡ variables.old) }
{
    let Holder::Loop { record, row, turn } = holder else {
        return Ok(());
    };
    let Some(values) = rows_of(records, record).get(turn) else {
        return Ok(());
    };
    variables.set(row, Content::Turn(values.copy(alloc)?))
}

/// Replaces the innermost frame.
fn set_innermost(frames: &mut List<Frame>, frame: Frame)
    ensures { (outer : List Frame) (p : Frame) → frames.old ≡ outer ++ p ∷ [] → frames.new ≡ outer ++ frame ∷ [] }
{
    if let Some(last) = frames.len().checked_sub(1) {
        frames.set(last, frame);
    }
}

/// Begins the next turn of the loop at the innermost frame. It sets the loop's row, and moves the call to the frame in
/// that turn. On `NoMemory` the call is unchanged.
fn begin_turn(alloc: Global, task: &mut Task, frame: Frame) -> Result<(), NoMemory>
    ensures ok { OnOk result ((outer : List Frame) (p : Frame) → task.old.frames ≡ outer ++ p ∷ [] → task.new ≡ in_turn_at task.old outer p frame) }
    ensures err { OnErr result (task.new ≡ task.old) }
{
    let Some((_, last)) = innermost(task.frames.as_slice()) else {
        return Ok(());
    };
    set_row(alloc, &mut task.variables, &task.log.records(), last.holder)?;
    set_innermost(&mut task.frames, frame);
    Ok(())
}

/// Moves a call to the frame at which it continues. If a turn begins there, the loop's row is set. On `NoMemory` the
/// call is unchanged.
pub(crate) fn enter_frame(
    alloc: Global,
    task: &mut Task,
    frame: Frame,
    turn: bool,
) -> Result<(), NoMemory>
    ensures ok { OnOk result ((outer : List Frame) (p : Frame) → task.old.frames ≡ outer ++ p ∷ [] → task.new ≡ task_at task.old outer p frame turn) }
    ensures err { OnErr result (task.new ≡ task.old) }
{
    if turn {
        begin_turn(alloc, task, frame)
    } else {
        Ok(())
    }
}
