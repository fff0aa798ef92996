//! Calls that run alone, one after another, and the full runs of all calls between them.

ghost use Rattle.mv_record.specs.Databases.{IsProgram};

use crate::hits::Point;
use mv_catalog::resolved::Program;
use mv_journal::event::Event;
use mv_record::record::Record;
use mv_recorded::laws::databases_are_kept;
use mv_recorder::calls::run_call;
use mv_serial::calls::{Serial, run_alone};
use mv_table::databases::tables_of;
use mv_values::calls::Reply;
use mv_values::copied::Copied;
use mv_values::list::List;
use mv_values::memory::NoMemory;
use std::alloc::Global;
use std::test::Fail;

/// Returns the records of a call that runs alone on the opening tables of its program.
fn full_run(alloc: Global, program: &Program, call: u32) -> Result<List<Record>, NoMemory>
    requires { IsProgram program.now }
{
    let tables = tables_of(alloc, &program.opening)?;
    let recording = run_call(alloc, program, call, tables)?;
    Ok(recording.records)
}

/// Returns the opening tables of a program, and the records of each call on them.
fn point_of(alloc: Global, program: &Program) -> Result<Point, NoMemory>
    requires { IsProgram program.now }
{
    let mut runs = List::new(alloc);
    let mut call: u32 = 0;
    for _ in program.resolved.calls.as_slice() {
        runs.push(full_run(alloc, program, call)?)?;
        call = call.saturating_add(1);
    }
    let tables = program.opening.copy(alloc)?;
    Ok(Point { tables, runs })
}

/// What calls that ran alone left: the replies by call, and the tables and runs before the first of them and after each.
#[derive(Drop)]
pub(crate) struct Alone {
    pub(crate) replies: List<Reply>,
    pub(crate) points: Vec<Point>,
}

/// Notes the reply of the call with this number.
fn note_reply(
    alloc: Global,
    replies: &mut List<Reply>,
    found: &[Reply],
    number: usize,
) -> Result<(), Fail> {
    let Some(reply) = found.get(number) else {
        return Err("no reply".into());
    };
    let reply = reply.copy(alloc)?;
    if number < replies.len() {
        replies.set(number, reply);
    }
    Ok(())
}

/// Runs a call alone, and notes its reply. The tables after it are dropped.
fn note_alone(
    alloc: Global,
    program: &Program,
    replies: &mut List<Reply>,
    call: u32,
) -> Result<(), Fail>
    requires { IsProgram program.now }
{
    let number = call as usize;
    if number >= program.resolved.calls.len() {
        return Err("no such call".into());
    }
    let serial = run_alone(alloc, program, &[call])?;
    note_reply(alloc, replies, serial.replies.as_slice(), number)
}

/// Runs a call alone, and notes its reply. The tables after it become the program's opening.
fn run_next(
    alloc: Global,
    program: &mut Program,
    replies: &mut List<Reply>,
    call: u32,
) -> Result<(), Fail>
    requires { IsProgram program.old }
    ensures { IsProgram program.new }
{
    let number = call as usize;
    if number >= program.resolved.calls.len() {
        return Err("no such call".into());
    }
    let serial = run_alone(alloc, program, &[call])?;
    note_reply(alloc, replies, serial.replies.as_slice(), number)?;
    databases_are_kept();
    program.opening = serial.tables;
    Ok(())
}

/// Runs the call of an event alone, if it commits, begins or moves. If it commits, its changes are kept. An answered call
/// has the reply of its last begin or move.
fn run_event(
    alloc: Global,
    program: &mut Program,
    alone: &mut Alone,
    event: Event,
) -> Result<(), Fail>
    requires { IsProgram program.old }
    ensures { IsProgram program.new }
{
    match event {
        Event::C(call) | Event::X(call) => {
            run_next(alloc, program, &mut alone.replies, call)?;
            alone.points.push(point_of(alloc, program)?)?;
            Ok(())
        }
        Event::B(call) | Event::M(call) => note_alone(alloc, program, &mut alone.replies, call),
        _ => Ok(()),
    }
}

/// Runs the calls of these events alone: those that commit in this order, and the others at their starts. The tables after
/// them become the program's opening.
pub(crate) fn run_commits(
    alloc: Global,
    program: &mut Program,
    events: &[Event],
) -> Result<Alone, Fail>
    requires { IsProgram program.old }
{
    let Serial { replies, .. } = run_alone(alloc, program, &[])?;
    let mut alone = Alone {
        replies,
        points: Vec::new(alloc),
    };
    alone.points.push(point_of(alloc, program)?)?;
    for event in events {
        run_event(alloc, program, &mut alone, *event)?;
    }
    Ok(alone)
}
