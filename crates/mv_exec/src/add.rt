//! Adds a record to a running call.

ghost use Rattle.std.specs.Prelude.{◌≡◌, ◌<◌, ◌+◌, ◌++◌, ◌∷◌, [], None, false, true, Some, List, length, slice_get, option_to_list, max, IfOk, OnOk, OnErr};
ghost use Rattle.mv_catalog.specs.declared.resolved.ProcInfo.{ProcInfo};
ghost use Rattle.mv_catalog.specs.declared.resolved.RStmt.{RStmt, out-RStmt};
ghost use Rattle.mv_record.specs.declared.record.Record.{Record};
ghost use Rattle.mv_graph.specs.Nodes.{IsGraph, IsSound};
ghost use Rattle.mv_graph.specs.Steps.{TellsOf};
ghost use Rattle.mv_effect.specs.Choosing.{Chooses};
ghost use Rattle.mv_exec.specs.declared.frames.Frame.{Frame};
ghost use Rattle.mv_exec.specs.declared.recording.Origin.TheVariants.{Executed};
ghost use Rattle.mv_exec.specs.Keeping.{slot_room};
ghost use Rattle.mv_exec.specs.Frames.{AreFilled, AreNumbered, IsAtStep};
ghost use Rattle.mv_exec.specs.Recording.{closed, IsRecordOf, MayCome};
ghost use Rattle.mv_exec.specs.Steps.{HasAddedRecord, HasFronts, IsWidened, changed_by, with_log};
ghost use Rattle.mv_exec.specs.Running.{stepped};
ghost use Rattle.mv_exec.specs.Tasks.{frames_of, IsTask, StandsAsBefore, IsTrimmed};

use crate::frames::Frame;
use crate::keeping::{set_definers, widen};
use crate::moves::{frame_after, inner_frame};
use crate::position::Position;
use crate::recording::{OpenStatement, Origin, add_record, ends_call};
use crate::step::{Stepped, answer, change_variables};
use crate::task::Task;
use crate::trim::trim;
use mv_graph::graph::{Graph, Step};
use mv_record::record::Slot;
use mv_values::list::List;
use mv_values::memory::NoMemory;
use std::alloc::Global;

/// Returns the number of variables that a slot and those before it need.
fn room_with(most: usize, slot: &Slot) -> usize
    ensures { result ≡ max most (slot.now.slot + 1) }
{
    let needed = slot.slot as usize + 1;
    if needed > most { needed } else { most }
}

/// Returns the number of variables that these slots need.
#[tactic(auto, using(crate::proofs::Changing::room_next))]
fn room_for(slots: &[Slot]) -> usize
    ensures { result ≡ slot_room slots.now }
{
    let mut most = 0;
    for slot in slots {
        most = room_with(most, slot);
    }
    most
}

/// Adds a frame, if there is one.
fn push_frame(frames: &mut List<Frame>, inner: Option<Frame>) -> Result<(), NoMemory>
    ensures ok { OnOk result (frames.new ≡ frames.old ++ option_to_list inner) }
    ensures err { OnErr result (frames.new ≡ frames.old) }
{
    match inner {
        Some(frame) => frames.push(frame),
        None => Ok(()),
    }
}

/// Makes the changes of the record with this number, which has just been added to the log: to the variables and the
/// definers, and by the frame inside its statement. On `NoMemory` some of this may be done.
fn make_changes_of(
    alloc: Global,
    task: &mut Task,
    number: u32,
    step: &Step,
    inner: Option<Frame>,
) -> Result<(), NoMemory>
    requires { number < length task.old.log.records }
    ensures ok { OnOk result ((proc : ProcInfo) (s : RStmt) (r : Record) → TellsOf proc s step.now → slice_get task.old.log.records number ≡ Some r → task.new ≡ changed_by task.old number s r (option_to_list inner)) }
    ensures err { OnErr result (HasFronts task.old task.new) }
{
    let given = task.log.records().get(number as usize);
    widen(&mut task.definers, room_for(given.sets()))?;
    push_frame(&mut task.frames, inner)?;
    change_variables(alloc, &mut task.variables, step, &given)?;
    set_definers(&mut task.definers, given.sets(), number);
    Ok(())
}

/// Adds the record of the open statement, and makes its changes. On `NoMemory` only the room for definers and the open
/// statement may have changed.
fn push_record(
    alloc: Global,
    task: &mut Task,
    at: OpenStatement,
    origin: Origin,
    step: &Step,
    inner: Option<Frame>,
) -> Result<(), NoMemory>
    requires origin { MayCome task.old.log origin }
    ensures ok { OnOk result ((proc : ProcInfo) (s : RStmt) (r : Record) → TellsOf proc s step.now → IsRecordOf task.old.log at origin r → task.new ≡ changed_by (with_log task.old (closed task.old.log origin r)) (length task.old.log.records) s r (option_to_list inner)) }
    ensures err { OnErr result (IsWidened origin task.old task.new) }
{
    let number = task.log.len();
    let depth = task.frames.len();
    add_record(&mut task.log, at, origin)?;
    match make_changes_of(alloc, task, number, step, inner) {
        Ok(()) => Ok(()),
        Err(error) => {
            task.log.truncate(number);
            task.frames.truncate(depth);
            Err(error)
        }
    }
}

/// Replaces the frame at this index.
fn put_frame(frames: &mut List<Frame>, at: usize, frame: Frame)
    ensures { (outer inner : List Frame) (p : Frame) → frames.old ≡ (outer ++ p ∷ []) ++ inner → at ≡ length outer → frames.new ≡ (outer ++ frame ∷ []) ++ inner }
{
    if at < frames.len() {
        frames.set(at, frame);
    }
}

/// Ends a call, or drops the frames at which nothing is left.
fn end_or_trim(graph: &Graph, task: &mut Task, ends: bool) -> Stepped
    requires graph { IsGraph graph.now }
    requires live { task.old.ended ≡ false }
    requires filled { AreFilled graph.now.procedure None task.old.frames }
    requires numbers { AreNumbered graph.now.procedure None task.old.frames }
    ensures ends { ends ≡ true → task.new ≡ record task.old { ended = true } }
    ensures trims { ends ≡ false → IsTrimmed graph.now.procedure task.old task.new }
    ensures stepped { result ≡ stepped task.new.ended }
{
    if ends {
        task.ended = true;
        return answer(task.ended);
    }
    trim(graph, task);
    answer(task.ended)
}

/// Adds the record of a call's open statement, which is its next one. An IF takes the given branch. Returns whether the
/// call has ended. On `NoMemory` only the open statement may have changed.
pub(crate) fn add(
    alloc: Global,
    graph: &Graph,
    task: &mut Task,
    at: OpenStatement,
    origin: Origin,
    position: Position<'_>,
    yes: bool,
) -> Result<Stepped, NoMemory>
    requires sound { IsSound graph.now }
    requires task { IsTask graph.now.procedure task.old }
    requires live { task.old.ended ≡ false }
    requires origin { MayCome task.old.log origin }
    requires at { IsAtStep graph.now.procedure (frames_of task.old) position.frame position.step.now }
    requires branch { Chooses task.old.variables.env yes (out-RStmt position.step.now.statement) }
    ensures task { IsTask graph.now.procedure task.new }
    ensures added { OnOk result ((r : Record) → IsRecordOf task.old.log at origin r → HasAddedRecord graph.now.procedure task.old r task.new) }
    ensures log { OnOk result ((r : Record) → IsRecordOf task.old.log at origin r → task.new.log ≡ closed task.old.log origin r) }
    ensures past { task.new.log.past ≡ task.old.log.past }
    ensures kept { origin ≡ Executed → task.new.log.kept ≡ task.old.log.kept }
    ensures executed { OnOk result (task.new.executed ≡ task.old.executed) }
    ensures tells { IfOk result (λ s. s ≡ stepped task.new.ended) }
    ensures found { task.new.variables.env.found ≡ task.old.variables.env.found }
    ensures err { OnErr result (StandsAsBefore graph.now.procedure task.old task.new) }
{
    let number = task.log.len();
    let depth = task.frames.len();
    let inner = inner_frame(position, number, yes);
    push_record(alloc, task, at, origin, position.step, inner)?;
    put_frame(
        &mut task.frames,
        depth.saturating_sub(1),
        frame_after(position),
    );
    let ends = ends_call(&task.log.records(), number);
    Ok(end_or_trim(graph, task, ends))
}
