//! A running call.

ghost use Rattle.std.specs.Prelude.{◌≡◌, ◌<◌, [], ◌∷◌, length, IfOk, List};
ghost use Rattle.mv_values.specs.declared.schema.TableInfo.{TableInfo};
ghost use Rattle.mv_values.specs.declared.calls.Call.{Call};
ghost use Rattle.mv_values.specs.Tables.{Tables};
ghost use Rattle.mv_catalog.specs.declared.resolved.ProcInfo.{ProcInfo};
ghost use Rattle.mv_catalog.specs.declared.resolved.RStmt.{RStmt};
ghost use Rattle.mv_eval.specs.TableAfter.{entered};
ghost use Rattle.mv_eval.specs.declared.state.Env.{Env};
ghost use Rattle.mv_recorded.specs.Recorded.{recorded};
ghost use Rattle.mv_log.specs.Logged.{empty as no_records, owned};
ghost use Rattle.mv_graph.specs.declared.graph.Graph.{Graph};
ghost use Rattle.mv_exec.specs.Env.{at_beginning};
ghost use Rattle.mv_exec.specs.Running.{IsRunning, IsRunningOn, IsTaskOf, IsTaskOn};
ghost use Rattle.mv_exec.specs.Tasks.{first_frame, none_in, run_of, IsTask, BeginsCall, fresh_task as fresh};

use crate::frames::{Frame, Holder};
use crate::variables::Variables;
use mv_catalog::resolved::{ProcInfo, RStmt};
use mv_eval::enter::variables_for;
use mv_log::log::Log;
use mv_log::records::Records;
use mv_undo::undo::Undo;
use mv_values::calls::Call;
use mv_values::list::List;
use mv_values::memory::NoMemory;
use std::alloc::Global;

/// A running call: the log of its records so far, and its position.
pub struct Task {
    /// The number of variables that are parameters.
    pub(crate) parameters: usize,
    pub(crate) variables: Variables,
    pub(crate) log: Log,
    /// The number of records that were added by executing a statement.
    pub(crate) executed: usize,
    /// For each variable the number of the record that last set it.
    pub(crate) definers: List<Option<u32>>,
    /// The position of the call, from the outside in. Each frame but the first lies in the statement just before the
    /// frame around it.
    pub(crate) frames: List<Frame>,
    /// Whether no statement is left.
    pub(crate) ended: bool,
    /// Whether the procedure has no statements.
    pub(crate) empty: bool,
}

impl Drop for Task {
    /// Drops what the call has. A drop of its own is one step for who drops a call; a derived one is a step for each part.
    fn drop(self) {
        let Task {
            parameters: _,
            variables: _,
            log: _,
            executed: _,
            definers: _,
            frames: _,
            ended: _,
            empty: _,
        } = self;
    }
}

/// Returns the frame before the first statement of a procedure.
fn before_all() -> Frame
    ensures { result ≡ first_frame }
{
    Frame {
        holder: Holder::Procedure,
        first: 1,
        at: 0,
        number: 1,
    }
}

/// Whether a list of statements is empty.
fn is_empty(block: &[RStmt]) -> bool
    ensures { result ≡ none_in block.now }
{
    match block {
        [] => true,
        _ => false,
    }
}

/// Returns a call that has executed nothing.
fn fresh_task(
    alloc: Global,
    parameters: usize,
    variables: Variables,
    log: Log,
    frames: List<Frame>,
    empty: bool,
) -> Task
    requires log { log ≡ no_records }
    requires frames { frames ≡ first_frame ∷ [] }
    requires beginning { variables ≡ at_beginning variables.initial }
    ensures { result ≡ fresh parameters variables.initial no_records empty }
{
    Task {
        parameters,
        variables,
        log,
        executed: 0,
        definers: List::new(alloc),
        frames,
        ended: empty,
        empty,
    }
}

/// Drops all frames except the one before the first statement of the procedure.
#[tactic(auto, using(crate::proofs::Beginning::only_first))]
fn go_back(frames: &mut List<Frame>)
    ensures { 0 < length frames.old → frames.new ≡ first_frame ∷ [] }
{
    if frames.len() > 0 {
        frames.truncate(1);
        frames.set(0, before_all());
    }
}

impl Task {
    /// Returns a call of a procedure before its first statement, with this log for its records. It copies the arguments.
    #[tactic(auto, using(crate::proofs::Beginning::new_begins, crate::proofs::Beginning::new_run))]
    pub(crate) fn of(
        alloc: Global,
        procedure: &ProcInfo,
        call: &Call,
        log: Log,
    ) -> Result<Task, NoMemory>
        requires { log ≡ no_records }
        ensures task { IfOk result (λ t. IsTask procedure.now t) }
        ensures log { IfOk result (λ t. t.log ≡ no_records) }
        ensures executed { IfOk result (λ t. t.executed ≡ 0) }
        ensures begins { IfOk result (λ t. BeginsCall t procedure.now call.now) }
        ensures variables { IfOk result (λ t. t.variables.env ≡ entered procedure.now call.now) }
        ensures run { IfOk result (λ t. (tables : List TableInfo) (db : Tables) → run_of procedure.now tables t db ≡ recorded tables procedure.now call.now db) }
    {
        let env = variables_for(alloc, procedure, call)?;
        let variables = Variables::new(alloc, env)?;
        let empty = is_empty(procedure.body.as_slice());
        let mut frames = List::new(alloc);
        frames.push(before_all())?;
        let parameters = call.arguments.len();
        let task = fresh_task(alloc, parameters, variables, log, frames, empty);
        Ok(task)
    }

    /// Returns the records so far.
    pub fn records(&self) -> Records<'_>
        ensures { result ≡ self.now.log.records }
    {
        self.log.records()
    }

    /// Returns the records of the run before the repair.
    pub fn past(&self) -> Records<'_>
        ensures { result ≡ self.now.log.past }
    {
        self.log.past()
    }

    /// The number of records that were added by executing a statement.
    pub fn executed(&self) -> usize
        ensures { result ≡ self.now.executed }
    {
        self.executed
    }

    /// Whether no statement is left.
    pub fn ended(&self) -> bool
        ensures { result ≡ self.now.ended }
    {
        self.ended
    }

    /// Returns the call's own writes, with the numbers of their records.
    pub fn undo(&self) -> Undo<'_>
        ensures { result ≡ owned self.now.log }
    {
        self.log.undo()
    }

    /// Returns the log, which is empty and has its room. So another call can use it.
    pub fn into_log(self) -> Log
        ensures { result ≡ no_records }
    {
        let Task {
            parameters: _,
            variables: _,
            mut log,
            executed: _,
            definers: _,
            frames: _,
            ended: _,
            empty: _,
        } = self;
        log.clear();
        log
    }

    /// Puts the call back before its first statement. Its log, which has no records, stays as it is.
    fn begin_again(&mut self)
        ensures log { self.new.log ≡ self.old.log }
        ensures executed { self.new.executed ≡ 0 }
        ensures back { 0 < length self.old.frames → self.new ≡ fresh self.old.parameters self.old.variables.initial self.old.log self.old.empty }
    {
        self.variables.begin_again();
        self.executed = 0;
        self.definers.truncate(0);
        go_back(&mut self.frames);
        self.ended = self.empty;
    }

    /// Drops the records, and puts the call back before its first statement. It allocates no memory.
    pub fn restart(&mut self)
        ensures records { self.new.log.records ≡ [] }
        ensures executed { self.new.executed ≡ 0 }
        ensures call { (graph : Graph) (call : Call) → IsTaskOf graph call self.old → IsTaskOf graph call self.new }
        ensures begins { (graph : Graph) (call : Call) (db : Tables) → IsTaskOf graph call self.old → IsTaskOn graph call db self.new }
        ensures running { (graph : Graph) (db : Tables) → IsRunning graph self.old → IsRunningOn graph db self.new }
    {
        self.log.clear();
        self.begin_again();
    }

    /// Begins a repair: the records become those of the run before it, and the call is put back before its first
    /// statement. It allocates no memory, and moves no record.
    pub fn begin_repair(&mut self)
        ensures past { self.new.log.past ≡ self.old.log.records }
        ensures kept { self.new.log.kept ≡ 0 }
        ensures records { self.new.log.records ≡ [] }
        ensures executed { self.new.executed ≡ 0 }
        ensures call { (graph : Graph) (call : Call) → IsTaskOf graph call self.old → IsTaskOf graph call self.new }
        ensures begins { (graph : Graph) (call : Call) (db : Tables) → IsTaskOf graph call self.old → IsTaskOn graph call db self.new }
        ensures running { (graph : Graph) (db : Tables) → IsRunning graph self.old → IsRunningOn graph db self.new }
    {
        self.log.begin_repair();
        self.begin_again();
    }
}
