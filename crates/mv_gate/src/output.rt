//! The output of calls that have run whole.

ghost use Rattle.std.specs.Prelude.{◌≡◌, IfOk};
ghost use Rattle.mv_record.specs.Runs.{writes_in};
ghost use Rattle.mv_core.specs.Output.{reply_told, writes_told};
ghost use Rattle.mv_gate.specs.Gates.{Tells};

use mv_core::copies::append_copies;
use mv_core::output::reply_of;
use mv_exec::task::Task;
use mv_log::records::Records;
use mv_values::calls::Reply;
use mv_values::list::List;
use mv_values::memory::NoMemory;
use mv_values::patch::Write;
use std::alloc::Global;

/// The output of a call that has run whole: its reply, and the writes that count.
#[derive(Drop)]
pub struct CallOutput {
    pub(crate) reply: Reply,
    pub(crate) writes: List<Write>,
}

/// Returns the records whose writes count: all, or none if one of them ends the call.
pub(crate) fn counted<'a>(records: &Records<'a>, reply: &Reply) -> Records<'a>
    requires { reply.now ≡ reply_told records.now }
    ensures { writes_in result ≡ writes_told records.now }
{
    match reply.end {
        Some(_) => records.first(0),
        None => records.first(records.len()),
    }
}

/// Copies the writes of records, one record after another.
fn copy_writes(alloc: Global, records: &Records<'_>) -> Result<List<Write>, NoMemory>
    ensures { IfOk result (λ writes. writes ≡ writes_in records.now) }
{
    let mut writes = List::new(alloc);
    for number in 0..records.len() {
        append_copies(alloc, &mut writes, records.get(number).writes())?;
    }
    Ok(writes)
}

impl CallOutput {
    /// Returns what the records of a task tell. It copies their lines and their writes. Fails with `NoMemory` if memory
    /// runs out.
    pub(crate) fn new(alloc: Global, task: &Task) -> Result<CallOutput, NoMemory>
        ensures { IfOk result (Tells task.now.log.records) }
    {
        let all = task.records();
        let reply = reply_of(alloc, &all)?;
        let writes = copy_writes(alloc, &counted(&all, &reply))?;
        Ok(CallOutput { reply, writes })
    }
}
