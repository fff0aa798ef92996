//! Runs whole calls.

ghost use Rattle.std.specs.Prelude.{◌≡◌, ◌++◌, [], IfOk, OnOk, length};
ghost use Rattle.mv_catalog.specs.Text.{IsProcedure};
ghost use Rattle.mv_eval.specs.Alone.{alone};
ghost use Rattle.mv_eval.specs.TableAfter.{begun, reply_in};
ghost use Rattle.mv_recorded.specs.Recorded.{outside, recorded, tell_statements};
ghost use Rattle.mv_record.specs.Runs.{writes_in};
ghost use Rattle.mv_values.specs.Patching.{applied};
ghost use Rattle.mv_recorder.specs.Running.{AreFit, Ends, replied};
ghost use Rattle.mv_recorder.specs.Scenes.{AreSound, IsSound};
ghost use Rattle.mv_recorder.specs.Undoing.{all_back, KeepsBack};

use crate::adding::{Run, Text};
use crate::running::run_all;
use crate::sites::Site;
use crate::undo::{put_all_back, write_all};
use mv_catalog::resolved::{ProcInfo, RStmt};
use mv_eval::enter::variables_for;
use mv_eval::state::{State, Stop};
use mv_record::record::Record;
use mv_table::table::Tables;
use mv_values::calls::{Call, End, Reply};
use mv_values::list::List;
use mv_values::memory::NoMemory;
use mv_values::schema::TableInfo;
use mv_values::txt::Txt;
use std::alloc::Global;

/// A call that was run: its records, its reply, and the tables as they were before it.
#[derive(Drop)]
pub struct Recording {
    pub records: List<Record>,
    pub reply: Reply,
    pub tables: Tables,
}

/// Returns the reply of a call: its lines, or its end and no lines.
fn reply_of(alloc: Global, lines: List<Txt>, end: Option<End>) -> Reply
    ensures { result ≡ replied end lines }
{
    match end {
        None => Reply { lines, end: None },
        Some(end) => Reply {
            lines: List::new(alloc),
            end: Some(end),
        },
    }
}

/// Returns the run of a call before its first statement.
fn begun_run(
    alloc: Global,
    procedure: &ProcInfo,
    call: &Call,
    tables: Tables,
) -> Result<Run, NoMemory>
    ensures state { IfOk result (λ run. run.state ≡ begun procedure.now call.now tables) }
    ensures records { IfOk result (λ run. run.records ≡ []) }
    ensures undo { IfOk result (λ run. run.undo ≡ []) }
{
    let env = variables_for(alloc, procedure, call)?;
    let lines = List::new(alloc);
    Ok(Run {
        state: State { env, tables, lines },
        records: List::new(alloc),
        undo: List::new(alloc),
    })
}

/// Runs the statements of a procedure, and returns why the call is rolled back, if it is.
fn run_text(
    alloc: Global,
    text: &Text<'_>,
    statements: &[RStmt],
    run: &mut Run,
) -> Result<Option<End>, NoMemory>
    requires sound { IsSound text.now.infos.now run.old.state.env run.old.state.tables }
    requires fit { AreFit text.now.infos.now 1 statements.now }
    ensures records { OnOk result (run.new.records ≡ run.old.records ++ tell_statements text.now.infos.now text.now.params statements.now 1 outside run.old.records run.old.state) }
    ensures does { IfOk result (λ end. Ends end run.new.state (alone text.now.infos.now statements.now run.old.state)) }
    ensures undo { OnOk result (KeepsBack run.old.undo run.old.state.tables run.new.undo run.new.state.tables) }
{
    let site = Site::outside(alloc);
    match run_all(alloc, text, statements, 1, &site, run) {
        Ok(()) => Ok(None),
        Err(Stop::Memory) => Err(NoMemory),
        Err(Stop::Ended(end)) => Ok(Some(end)),
    }
}

/// Takes all writes of a run back, and returns what it left.
fn finished(alloc: Global, run: Run, end: Option<End>) -> Result<Recording, NoMemory>
    ensures records { IfOk result (λ r. r.records ≡ run.records) }
    ensures reply { IfOk result (λ r. r.reply ≡ replied end run.state.lines) }
    ensures tables { IfOk result (λ r. r.tables ≡ all_back run.undo run.state.tables) }
{
    let Run {
        state,
        records,
        undo,
    } = run;
    let State {
        env: _,
        tables,
        lines,
    } = state;
    let (mut tables, mut undo) = (tables, undo);
    put_all_back(alloc, &mut tables, &mut undo)?;
    let reply = reply_of(alloc, lines, end);
    Ok(Recording {
        records,
        reply,
        tables,
    })
}

/// Runs a call of a procedure on these tables alone, and returns its records and its reply. All its writes are taken
/// back, so the tables are as before. What the call leaves are the tables after the writes of its records, if it isn't
/// rolled back.
///
/// It executes a statement by looking at the tables as they are then, and knows nothing of versions, snapshots or
/// repairs. For each variable that a statement reads it looks through the records from the last one on. Fails if memory
/// runs out.
pub fn record_call(
    alloc: Global,
    infos: &[TableInfo],
    procedure: &ProcInfo,
    call: &Call,
    tables: Tables,
) -> Result<Recording, NoMemory>
    requires sound { AreSound infos.now tables }
    requires procedure { IsProcedure infos.now procedure.now }
    requires arguments { length call.now.arguments ≡ length procedure.now.params }
    ensures records { IfOk result (λ r. r.records ≡ recorded infos.now procedure.now call.now tables) }
    ensures reply { IfOk result (λ r. r.reply ≡ reply_in (alone infos.now procedure.now.body (begun procedure.now call.now tables))) }
    ensures tables { IfOk result (λ r. r.tables ≡ tables) }
{
    let text = Text {
        infos,
        params: call.arguments.len(),
    };
    let mut run = begun_run(alloc, procedure, call, tables)?;
    let end = run_text(alloc, &text, procedure.body.as_slice(), &mut run)?;
    finished(alloc, run, end)
}

/// Returns the tables after the writes of these records. Each write takes logarithmic time.
pub fn after_records(alloc: Global, tables: Tables, records: &[Record]) -> Result<Tables, NoMemory>
    ensures { IfOk result (λ after. after ≡ applied (writes_in records.now) tables) }
{
    let mut tables = tables;
    let mut undo = List::new(alloc);
    for one in records {
        write_all(alloc, &mut tables, &mut undo, one.writes.as_slice())?;
    }
    Ok(tables)
}
