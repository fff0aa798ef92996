//! Calls before their repairs.

ghost use Rattle.std.specs.Prelude.{IfOk, IfSome, IfNone};
ghost use Rattle.mv_explain.specs.Explained.{AreBefore, IsPast};

use mv_changes::recent::Committed;
use mv_core::engine::Core;
use mv_exec::task::Task;
use mv_values::list::List;
use mv_values::memory::NoMemory;
use mv_view::view::Refused;
use std::alloc::Global;

/// A live call before its repair.
#[derive(Drop)]
pub(crate) struct Before {
    /// The call, run whole at its start.
    pub(crate) task: Task,
    /// The commits after that start.
    pub(crate) since: List<Committed>,
}

/// Returns a call before its repair. Returns `None` exactly if it isn't live or its start is below low.
pub(crate) fn before_repair(
    alloc: Global,
    core: &Core,
    call: u32,
) -> Result<Option<Before>, NoMemory>
    ensures some { IfOk result (λ before. IfSome before (λ b. AreBefore core.now.book call b.task.log.records b.since)) }
    ensures none { IfOk result (λ before. IfNone before (IsPast core.now.book call)) }
{
    if core.rounds(call).is_none() {
        return Ok(None);
    }
    match core.run_whole(alloc, call) {
        Ok(task) => {
            let since = core.copy_since(alloc, call)?;
            Ok(Some(Before { task, since }))
        }
        Err(Refused::Stale { .. }) => Ok(None),
        Err(Refused::NoMemory) => Err(NoMemory),
    }
}
