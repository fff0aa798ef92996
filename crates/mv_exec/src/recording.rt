//! The record of a statement in the log of a running call: begun before the statement is executed, and added after it.

ghost use Rattle.std.specs.Prelude.{◌≡◌, ◌<◌, ◌^◌, [], Some, map, slice_get, IfOk, OnOk, OnErr};
ghost use Rattle.std.specs.Option.{is_some, option_or};
ghost use Rattle.mv_record.specs.declared.record.Record.{Record};
ghost use Rattle.mv_recorded.specs.Reading.{loop_of};
ghost use Rattle.mv_recorded.specs.Recorded.{Site, outside};
ghost use Rattle.mv_exec.specs.Frames.{site_in, site_of};
ghost use Rattle.mv_exec.specs.Recording.{opened, peeked, closed, IsRecordOf, MayCome};
ghost use Rattle.mv_exec.specs.Ahead.{ahead_at};
ghost use Rattle.mv_exec.specs.Tasks.{definer_in};

use crate::around::{definer_of, parent_at, turn_number};
use crate::frames::{Frame, Holder};
use mv_log::log::Log;
use mv_log::records::Records;
use mv_log::var_read::VarRead;
use mv_values::memory::NoMemory;

/// The statement whose record is begun in a log.
#[derive(Clone, Copy)]
pub(crate) struct OpenStatement {
    pub(crate) statement: u16,
    /// The number of the record of the IF or FOR that directly holds it.
    pub(crate) parent: Option<u32>,
}

/// Where a record gets its effect: its statement is executed, or it keeps the one of this record of the run before a
/// repair.
#[derive(Clone, Copy)]
pub(crate) enum Origin {
    Executed,
    Kept(u32),
}

/// Adds the turn of a holder to those of the open statement if the holder is a loop.
fn push_turn(log: &mut Log, holder: Holder) -> Result<(), NoMemory>
    ensures ok { OnOk result ((site : Site) → log.old.turns ≡ site.turns → log.new ≡ opened log.old (site_in holder site).turns log.old.reads) }
    ensures err { OnErr result (log.new ≡ log.old) }
{
    match holder {
        Holder::Loop { turn, .. } => log.push_turn(turn_number(turn)?),
        _ => Ok(()),
    }
}

/// Adds the turns of the loops around the innermost frame to those of the open statement, from the outside in.
fn push_turns(log: &mut Log, frames: &[Frame]) -> Result<(), NoMemory>
    requires { log.old.turns ≡ [] }
    ensures ok { OnOk result (log.new ≡ opened log.old (site_of outside frames.now).turns log.old.reads) }
    ensures rest { log.new ≡ opened log.old log.new.turns log.old.reads }
{
    for frame in frames {
        push_turn(log, frame.holder)?;
    }
    Ok(())
}

/// Adds variables with their definers to what the open statement reads.
fn push_reads(
    log: &mut Log,
    frames: &[Frame],
    holder: Holder,
    definers: &[Option<u32>],
    variables: &[u16],
) -> Result<(), NoMemory>
    requires { log.old.reads ≡ [] }
    ensures ok { OnOk result (log.new ≡ opened log.old log.old.turns (map (λ x. record { slot = x; definer = option_or (loop_of x (site_in holder (site_of outside frames.now)).loops) (definer_in definers.now x) }) variables.now)) }
    ensures rest { log.new ≡ opened log.old log.old.turns log.new.reads }
{
    for slot in variables {
        let definer = definer_of(frames, holder, definers, *slot);
        log.push_read(VarRead::of(*slot, definer))?;
    }
    Ok(())
}

/// Begins the record of the statement at a frame inside these, which reads these variables: the turns of the loops
/// around it and its reads are then those of the open statement.
pub(crate) fn begin_record(
    log: &mut Log,
    frames: &[Frame],
    frame: Frame,
    definers: &[Option<u32>],
    variables: &[u16],
) -> Result<OpenStatement, NoMemory>
    requires turns { log.old.turns ≡ [] }
    requires reads { log.old.reads ≡ [] }
    requires small { frame.number < 2 ^ 16 }
    ensures ok { IfOk result (λ at. peeked log.new at ≡ ahead_at definers.now (site_in frame.holder (site_of outside frames.now)) frame.number variables.now) }
    ensures rest { log.new ≡ opened log.old log.new.turns log.new.reads }
{
    push_turns(log, frames)?;
    push_turn(log, frame.holder)?;
    push_reads(log, frames, frame.holder, definers, variables)?;
    Ok(OpenStatement {
        statement: frame.number as u16,
        parent: parent_at(frames, frame.holder),
    })
}

/// Adds the record of the open statement. On `NoMemory` the log is unchanged.
pub(crate) fn add_record(log: &mut Log, at: OpenStatement, origin: Origin) -> Result<(), NoMemory>
    requires { MayCome log.old origin }
    ensures ok { OnOk result ((r : Record) → IsRecordOf log.old at origin r → log.new ≡ closed log.old origin r) }
    ensures err { OnErr result (log.new ≡ log.old) }
{
    match origin {
        Origin::Executed => log.close(at.statement, at.parent),
        Origin::Kept(old) => log.adopt(old, at.statement, at.parent),
    }
}

/// Whether the record with this number ends the call.
pub(crate) fn ends_call(records: &Records<'_>, number: u32) -> bool
    ensures { (r : Record) → slice_get records.now number ≡ Some r → result ≡ is_some r.end }
{
    if number as usize >= records.len() {
        return false;
    }
    records.get(number as usize).end().is_some()
}
