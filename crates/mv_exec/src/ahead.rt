//! The place, controller and definers of the next record.

ghost use Rattle.std.specs.Prelude.{◌≡◌, ◌↔◌, ◌<◌, ◌≤◌, ◌^◌, false, true, Some, length, slice_get, IfOk};
ghost use Rattle.mv_catalog.specs.Statements.{size_of};
ghost use Rattle.mv_recorded.specs.Recorded.{outside};
ghost use Rattle.mv_graph.specs.Nodes.{IsGraph};
ghost use Rattle.mv_exec.specs.Frames.{site_in, site_of, IsAtStep};
ghost use Rattle.mv_exec.specs.Recording.{IsAtRest, peeked, opened};
ghost use Rattle.mv_exec.specs.Tasks.{frames_of, IsTask, StandsAsBefore};
ghost use Rattle.mv_exec.specs.Ahead.{PeeksLeft, IsNextStep, ahead_at};

use crate::around::{are_turns_at, definer_of, parent_at, turns_at};
use crate::frames::{Frame, Holder, outer};
use crate::position::{Position, next_position};
use crate::recording::{OpenStatement, begin_record};
use crate::task::Task;
use crate::turns::enter_frame;
use mv_graph::graph::Graph;
use mv_log::var_read::VarRead;
use mv_values::list::List;
use mv_values::memory::NoMemory;
use std::alloc::Global;
use std::marker::Model;

/// The place, controller and definers of a record that hasn't been added yet, worked out where they are asked for.
/// Contracts see those of the record.
#[derive(Drop)]
pub struct Ahead<'a> {
    /// The frames around that of its statement.
    frames: &'a [Frame],
    holder: Holder,
    number: usize,
    definers: &'a [Option<u32>],
    /// The variables that its statement reads.
    variables: &'a [u16],
}

impl<'a> Model for Ahead<'a> {
    ghost use Rattle.std.specs.Prelude.{◌<◌, ◌^◌};
    ghost use Rattle.mv_recorded.specs.Recorded.{outside};
    ghost use Rattle.mv_exec.specs.Peeked.{Ahead as Known};
    ghost use Rattle.mv_exec.specs.Frames.{site_in, site_of};
    ghost use Rattle.mv_exec.specs.Ahead.{ahead_at};

    ghost Value = { Known };

    ghost view = { λ a. ahead_at a.definers.now (site_in a.holder (site_of outside a.frames.now)) a.number a.variables.now };

    ghost invariant = { λ a. a.number < 2 ^ 16 };
}

/// Returns a variable.
fn variable_at(variables: &[u16], at: usize) -> u16
    requires { at < length variables.now }
    ensures { slice_get variables.now at ≡ Some result }
{
    variables[at]
}

impl<'a> Ahead<'a> {
    /// Returns the number of its statement.
    pub fn statement(&self) -> u16
        ensures { result ≡ self.now.spot.statement }
    {
        self.number as u16
    }

    /// Whether these are the iterations of the enclosing FORs, outermost first. Allocates nothing.
    pub fn is_in(&self, turns: &[u32]) -> bool
        ensures { (result ≡ true) ↔ (self.now.spot.turns ≡ turns.now) }
    {
        are_turns_at(self.frames, self.holder, turns)
    }

    /// Returns the iterations of the enclosing FORs, outermost first.
    pub fn turns(&self, alloc: Global) -> Result<List<u32>, NoMemory>
        ensures { IfOk result (λ turns. turns ≡ self.now.spot.turns) }
    {
        turns_at(alloc, self.frames, self.holder)
    }

    /// Returns the number of the record of the IF or FOR that directly holds its statement.
    pub fn parent(&self) -> Option<u32>
        ensures { result ≡ self.now.parent }
    {
        parent_at(self.frames, self.holder)
    }

    /// Returns how many variables it reads.
    pub fn reads(&self) -> usize
        ensures { result ≡ length self.now.reads }
    {
        self.variables.len()
    }

    /// Returns one of the variables that it reads. Allocates nothing.
    pub fn read(&self, at: usize) -> VarRead
        requires { at < length self.now.reads }
        ensures { slice_get self.now.reads at ≡ Some result }
    {
        let slot = variable_at(self.variables, at);
        let definer = definer_of(self.frames, self.holder, self.definers, slot);
        VarRead::of(slot, definer)
    }
}

/// Returns what is ahead of a call that continues at a frame inside these, before a statement that reads these
/// variables.
fn ahead_at<'a>(
    definers: &'a [Option<u32>],
    frames: &'a [Frame],
    frame: Frame,
    variables: &'a [u16],
) -> Ahead<'a>
    requires { frame.number < 2 ^ 16 }
    ensures { result ≡ ahead_at definers.now (site_in frame.holder (site_of outside frames.now)) frame.number variables.now }
{
    Ahead {
        frames,
        holder: frame.holder,
        number: frame.number,
        definers,
        variables,
    }
}

/// Returns the place, controller and definers of the record of a call's next statement.
fn ahead_of<'a>(graph: &'a Graph, task: &'a Task, position: Position<'a>) -> Ahead<'a>
    requires task { IsTask graph.now.procedure task.now }
    requires params { task.now.parameters ≡ length graph.now.procedure.params }
    requires live { task.now.ended ≡ false }
    requires short { size_of graph.now.procedure.body ≤ 1000 }
    requires goes_on { IsNextStep graph.now.procedure task.now position.frame position.step.now position.turn }
    ensures { PeeksLeft graph.now.procedure task.now (Some result) }
{
    let frames = outer(task.frames.as_slice());
    ahead_at(
        task.definers.as_slice(),
        frames,
        position.frame,
        position.step.reads.as_slice(),
    )
}

/// Returns the place, controller and definers of the next record, or none if no statement is left.
pub(crate) fn peek_next<'a>(graph: &'a Graph, task: &'a Task) -> Option<Ahead<'a>>
    requires nodes { IsGraph graph.now }
    requires task { IsTask graph.now.procedure task.now }
    requires params { task.now.parameters ≡ length graph.now.procedure.params }
    requires short { size_of graph.now.procedure.body ≤ 1000 }
    ensures { PeeksLeft graph.now.procedure task.now result }
{
    if task.ended {
        return None;
    }
    let position = next_position(graph, task);
    Some(ahead_of(graph, task, position))
}

/// Begins the record of a call's next statement, and moves the call there: the frame of the statement becomes the
/// innermost one, and the row of a loop is set if a turn begins with it. Returns the statement, and where the call
/// continues. On `NoMemory` only the open statement of the log may have changed.
pub(crate) fn advance<'g>(
    alloc: Global,
    graph: &'g Graph,
    task: &mut Task,
) -> Result<(OpenStatement, Position<'g>), NoMemory>
    requires nodes { IsGraph graph.now }
    requires task { IsTask graph.now.procedure task.old }
    requires params { task.old.parameters ≡ length graph.now.procedure.params }
    requires live { task.old.ended ≡ false }
    requires short { size_of graph.now.procedure.body ≤ 1000 }
    requires rest { IsAtRest task.old.log }
    ensures next { IfOk result (λ r. PeeksLeft graph.now.procedure task.old (Some (peeked task.new.log r.0))) }
    ensures at { IfOk result (λ r. IsAtStep graph.now.procedure (frames_of task.new) r.1.frame r.1.step.now) }
    ensures task { IsTask graph.now.procedure task.new }
    ensures same { StandsAsBefore graph.now.procedure task.old task.new }
    ensures live { task.new.ended ≡ false }
    ensures found { task.new.variables.env.found ≡ task.old.variables.env.found }
    ensures log { task.new.log ≡ opened task.old.log task.new.log.turns task.new.log.reads }
{
    let position = next_position(graph, task);
    let at = begin_record(
        &mut task.log,
        outer(task.frames.as_slice()),
        position.frame,
        task.definers.as_slice(),
        position.step.reads.as_slice(),
    )?;
    enter_frame(alloc, task, position.frame, position.turn)?;
    Ok((at, position))
}
