//! Commits into the shards.

ghost use Rattle.std.specs.Prelude.{◌≡◌, ◌<◌, ◌+◌, ◌++◌, ◌∷◌, [], false, length, IfOk, OnOk, OnErr};
ghost use Rattle.std.specs.List.{list_any};
ghost use lib.Dec.{eqb};
ghost use Rattle.mv_values.specs.Patching.{applied};
ghost use Rattle.mv_record.specs.Runs.{writes_in};
ghost use Rattle.mv_history.specs.Changes.{changes_between};
ghost use Rattle.mv_lawful.specs.Batch.{records_at};
ghost use Rattle.mv_shards.specs.Scripts.{batch};
ghost use Rattle.mv_shards.specs.Histories.{tables_at};
ghost use Rattle.mv_shards.specs.Leaves.{IsLeave, start_shown};
ghost use Rattle.mv_core.specs.Output.{reply_told, writes_told};

use crate::beside::Beside;
use crate::latest::last_error;
use crate::output::{CallOutput, counted};
use mv_changes::changes::Changes;
use mv_changes::commit::changes_of_commit;
use mv_exec::task::Task;
use mv_grace::grace::Naming;
use mv_grace::pin::Pin;
use mv_log::records::Records;
use mv_seats::board::Making;
use mv_shards::ledger::Ledger;
use mv_values::calls::Reply;
use mv_values::list::List;
use mv_values::memory::NoMemory;
use mv_values::patch::Write;
use std::alloc::Global;
use std::sync::Wait;

/// A call that was appended as a commit, and that the shards have.
#[derive(Drop)]
pub(crate) struct Installed {
    pub(crate) commit: u32,
    pub(crate) reply: Reply,
    /// What the commit has changed.
    pub(crate) changes: Changes,
}

/// Returns what the writes of records change in the tables after all commits. It reads under a pin, if readers need one.
fn changes_last<N: Making + Naming, R: Wait>(
    alloc: Global,
    beside: &Beside<'_, N, R>,
    ledger: &mut Ledger<N>,
    last: &mut Option<Pin<N>>,
    records: &Records<'_>,
) -> Result<Changes, NoMemory>
    requires { IsLeave N.script N.word (start_shown last.old) ledger.old.commits }
    ensures changes { IfOk result (λ changes. changes ≡ changes_between (tables_at N.script ledger.old.knows.seen ledger.old.commits) (applied (writes_in records.now) (tables_at N.script ledger.old.knows.seen ledger.old.commits))) }
    ensures same { OnOk result (ledger.new ≡ ledger.old) }
    ensures commits { ledger.new.commits ≡ ledger.old.commits }
    ensures seen { ledger.new.knows.seen ≡ ledger.old.knows.seen }
    ensures last { IsLeave N.script N.word (start_shown last.new) ledger.old.commits }
{
    let _commits = ledger.commits();
    let tables = beside.script.opening.len();
    let mut view = ledger.view(
        beside.rt,
        beside.shards,
        beside.board,
        beside.grace,
        last.take(),
    );
    match changes_of_commit(alloc, tables, records, &mut view) {
        Ok(changes) => {
            let (_seen, pin) = view.into_parts();
            *last = pin;
            Ok(changes)
        }
        Err(why) => {
            let (seen, pin) = view.into_parts();
            *last = pin;
            Err(last_error(ledger, beside.board, seen, why))
        }
    }
}

/// Appends a call as the next commit, and puts the writes that it tells into the shards. Its task must have run whole after
/// all commits. If memory runs out, the call hasn't committed.
pub(crate) fn install<N: Making + Naming, R: Wait>(
    alloc: Global,
    beside: &Beside<'_, N, R>,
    ledger: &mut Ledger<N>,
    last: &mut Option<Pin<N>>,
    call: u32,
    task: &Task,
    reply: Reply,
    writes: &List<Write>,
) -> Result<Installed, NoMemory>
    requires there { call < length N.script.calls }
    requires fresh { list_any (eqb call) ledger.old.knows.seen ≡ false }
    requires whole { task.now.log.records ≡ records_at (batch N.script) ledger.old.knows.seen ledger.old.commits call }
    requires reply { reply ≡ reply_told task.now.log.records }
    requires writes { writes.now ≡ writes_told task.now.log.records }
    requires last { IsLeave N.script N.word (start_shown last.old) ledger.old.commits }
    ensures commit { IfOk result (λ installed. installed.commit ≡ ledger.old.commits + 1) }
    ensures reply { IfOk result (λ installed. installed.reply ≡ ((batch N.script).run call (tables_at N.script ledger.old.knows.seen ledger.old.commits)).reply) }
    ensures changes { IfOk result (λ installed. installed.changes ≡ changes_between (tables_at N.script ledger.old.knows.seen ledger.old.commits) ((batch N.script).run call (tables_at N.script ledger.old.knows.seen ledger.old.commits)).tables) }
    ensures counted { OnOk result (ledger.new.commits ≡ ledger.old.commits + 1) }
    ensures appended { OnOk result (ledger.new.knows.seen ≡ ledger.old.knows.seen ++ call ∷ []) }
    ensures stays { OnErr result (ledger.new.commits ≡ ledger.old.commits) }
    ensures err { OnErr result (ledger.new.knows.seen ≡ ledger.old.knows.seen) }
    ensures last { IsLeave N.script N.word (start_shown last.new) ledger.old.commits }
{
    let _commits = ledger.commits();
    let records = counted(&task.records(), &reply);
    let changes = changes_last(alloc, beside, ledger, last, &records)?;
    let commit = ledger.commit(
        beside.rt,
        alloc,
        beside.board,
        beside.shards,
        call,
        writes,
        changes.as_slice(),
    )?;
    Ok(Installed {
        commit,
        reply,
        changes,
    })
}

/// The same, with what the task tells. It copies that.
pub(crate) fn install_task<N: Making + Naming, R: Wait>(
    alloc: Global,
    beside: &Beside<'_, N, R>,
    ledger: &mut Ledger<N>,
    last: &mut Option<Pin<N>>,
    call: u32,
    task: &Task,
) -> Result<Installed, NoMemory>
    requires there { call < length N.script.calls }
    requires fresh { list_any (eqb call) ledger.old.knows.seen ≡ false }
    requires whole { task.now.log.records ≡ records_at (batch N.script) ledger.old.knows.seen ledger.old.commits call }
    requires last { IsLeave N.script N.word (start_shown last.old) ledger.old.commits }
    ensures commit { IfOk result (λ installed. installed.commit ≡ ledger.old.commits + 1) }
    ensures reply { IfOk result (λ installed. installed.reply ≡ ((batch N.script).run call (tables_at N.script ledger.old.knows.seen ledger.old.commits)).reply) }
    ensures changes { IfOk result (λ installed. installed.changes ≡ changes_between (tables_at N.script ledger.old.knows.seen ledger.old.commits) ((batch N.script).run call (tables_at N.script ledger.old.knows.seen ledger.old.commits)).tables) }
    ensures counted { OnOk result (ledger.new.commits ≡ ledger.old.commits + 1) }
    ensures appended { OnOk result (ledger.new.knows.seen ≡ ledger.old.knows.seen ++ call ∷ []) }
    ensures stays { OnErr result (ledger.new.commits ≡ ledger.old.commits) }
    ensures err { OnErr result (ledger.new.knows.seen ≡ ledger.old.knows.seen) }
    ensures last { IsLeave N.script N.word (start_shown last.new) ledger.old.commits }
{
    let output = CallOutput::new(alloc, task)?;
    let CallOutput { reply, writes } = output;
    install(alloc, beside, ledger, last, call, task, reply, &writes)
}
