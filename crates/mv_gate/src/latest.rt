//! Work on the tables after all commits.

ghost use Rattle.std.specs.Prelude.{◌≡◌, ◌<◌, ℕ, true, [], length, IfOk, OnOk};
ghost use Rattle.mv_view.specs.declared.view.Refused.TheVariants.{Stale};
ghost use Rattle.mv_lawful.specs.Batch.{records_at};
ghost use Rattle.mv_shards.specs.Scripts.{script_in, batch};
ghost use Rattle.mv_seats.specs.Knowing.{Plain};
ghost use Rattle.mv_shards.specs.Histories.{tables_at};
ghost use Rattle.mv_shards.specs.Kept.{IsLow};
ghost use Rattle.mv_shards.specs.Leaves.{IsLeave, start_shown};
ghost use Rattle.mv_core.specs.Books.{IsNotStale};
ghost use Rattle.mv_core.specs.Cores.{RunsOn};
ghost use Rattle.mv_gate.specs.Gates.{IsWhole, IsLatest, HasRepaired};

use crate::beside::Beside;
use crate::tables::tables_shown;
use mv_core::book::Book;
use mv_core::running::{repair_over, run_all};
use mv_core::spare::Spare;
use mv_core::tasks::new_task;
use mv_exec::task::Task;
use mv_grace::grace::Naming;
use mv_grace::pin::Pin;
use mv_seats::board::{Board, Making};
use mv_seats::pass::Pass;
use mv_shards::ledger::Ledger;
use mv_values::copied::Copied;
use mv_values::memory::NoMemory;
use mv_values::rows::Database;
use mv_view::view::Refused;
use std::alloc::Global;
use std::sync::Wait;

/// Returns the error of a view of the tables after all commits, whose pass this is. Such a view is never stale: all that
/// it has seen are the commits that the ledger has seen.
pub(crate) fn last_error<N: Making + Naming>(
    ledger: &mut Ledger<N>,
    board: &Board<N>,
    seen: Pass<N>,
    why: Refused,
) -> NoMemory
    requires role { seen.role ≡ Plain }
    requires low { (start low : ℕ) → why ≡ Stale start low → (ledger.old.commits < low) × IsLow N.script.options.horizon low (length seen.seen) }
    ensures commits { ledger.new.commits ≡ ledger.old.commits }
    ensures seen { ledger.new.knows.seen ≡ ledger.old.knows.seen }
    ensures touched { ledger.new.touched ≡ ledger.old.touched }
{
    let commits = ledger.commits();
    match ledger.refused(board, seen, commits, why) {
        Ok(()) => unreachable!(),
        Err(error) => error,
    }
}

/// Runs a call of the script whole after all commits. Returns its task, which has the spare log. Fails with `NoMemory` if
/// memory runs out.
pub(crate) fn run_last<N: Making + Naming, R: Wait>(
    alloc: Global,
    beside: &Beside<'_, N, R>,
    ledger: &mut Ledger<N>,
    last: &mut Option<Pin<N>>,
    call: u32,
    spare: &mut Spare,
) -> Result<Task, NoMemory>
    requires there { call < length N.script.calls }
    requires last { IsLeave N.script N.word (start_shown last.old) ledger.old.commits }
    ensures commits { ledger.new.commits ≡ ledger.old.commits }
    ensures seen { ledger.new.knows.seen ≡ ledger.old.knows.seen }
    ensures runs { IfOk result (RunsOn (script_in N.script) call (tables_at N.script ledger.old.knows.seen ledger.old.commits)) }
    ensures records { IfOk result (λ task. task.log.records ≡ records_at (batch N.script) ledger.old.knows.seen ledger.old.commits call) }
    ensures ended { IfOk result (λ task. task.ended ≡ true) }
    ensures executed { IfOk result (λ task. task.executed ≡ length task.log.records) }
    ensures last { IsLeave N.script N.word (start_shown last.new) ledger.old.commits }
{
    let _commits = ledger.commits();
    let mut task = new_task(alloc, beside.script, call, spare)?;
    let mut view = ledger.view(
        beside.rt,
        beside.shards,
        beside.board,
        beside.grace,
        last.take(),
    );
    match run_all(alloc, beside.script, call, &mut task, &mut view) {
        Ok(()) => {
            let (_seen, pin) = view.into_parts();
            *last = pin;
            Ok(task)
        }
        Err(why) => {
            let (seen, pin) = view.into_parts();
            *last = pin;
            Err(last_error(ledger, beside.board, seen, why))
        }
    }
}

/// Repairs a task that has run whole at the start of a live call, after all commits of the history. Fails with `NoMemory`
/// if memory runs out.
pub(crate) fn repair_last<N: Making + Naming, R: Wait>(
    alloc: Global,
    beside: &Beside<'_, N, R>,
    book: &Book,
    ledger: &mut Ledger<N>,
    last: &mut Option<Pin<N>>,
    call: u32,
    task: &mut Task,
) -> Result<(), NoMemory>
    requires script { book.now.script ≡ script_in N.script }
    requires seen { ledger.old.knows.seen ≡ book.now.schedule.order }
    requires whole { IsWhole book.now call task.old }
    requires fresh { IsNotStale book.now call }
    requires last { IsLeave N.script N.word (start_shown last.old) ledger.old.commits }
    ensures commits { ledger.new.commits ≡ ledger.old.commits }
    ensures kept { ledger.new.knows.seen ≡ ledger.old.knows.seen }
    ensures latest { OnOk result (IsLatest book.now call task.new) }
    ensures executed { OnOk result (HasRepaired book.now call task.new) }
    ensures last { IsLeave N.script N.word (start_shown last.new) ledger.old.commits }
{
    let _commits = ledger.commits();
    let mut view = ledger.view(
        beside.rt,
        beside.shards,
        beside.board,
        beside.grace,
        last.take(),
    );
    let since = book.since(call);
    match repair_over(alloc, beside.script, call, task, since, &mut view) {
        Ok(_) => {
            let (_seen, pin) = view.into_parts();
            *last = pin;
            Ok(())
        }
        Err(why) => {
            let (seen, pin) = view.into_parts();
            *last = pin;
            Err(last_error(ledger, beside.board, seen, why))
        }
    }
}

/// Copies the tables after all commits. A script without calls has no commits. Fails with `NoMemory` if memory runs out.
pub(crate) fn last_tables<N: Making + Naming, R: Wait>(
    alloc: Global,
    beside: &Beside<'_, N, R>,
    ledger: &mut Ledger<N>,
    last: &mut Option<Pin<N>>,
) -> Result<Database, NoMemory>
    requires idle { length N.script.calls ≡ 0 → ledger.old.knows.seen ≡ [] }
    requires last { IsLeave N.script N.word (start_shown last.old) ledger.old.commits }
    ensures { IfOk result (λ tables. tables ≡ tables_at N.script ledger.old.knows.seen ledger.old.commits) }
{
    let _commits = ledger.commits();
    if beside.script.calls.len() == 0 {
        return beside.script.opening.copy(alloc);
    }
    let count = beside.script.opening.len();
    let mut view = ledger.view(
        beside.rt,
        beside.shards,
        beside.board,
        beside.grace,
        last.take(),
    );
    match tables_shown(alloc, count, &mut view) {
        Ok(tables) => {
            let (_seen, pin) = view.into_parts();
            *last = pin;
            Ok(tables)
        }
        Err(why) => {
            let (seen, pin) = view.into_parts();
            *last = pin;
            Err(last_error(ledger, beside.board, seen, why))
        }
    }
}
