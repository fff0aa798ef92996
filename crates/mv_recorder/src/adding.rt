//! Adds the record of one statement.

ghost use Rattle.std.specs.Prelude.{◌≡◌, ◌∷◌, ◌++◌, [], List as Seq, IfOk, OnOk, option_to_list};
ghost use Rattle.mv_catalog.specs.declared.resolved.RStmt.{out-RStmt};
ghost use Rattle.mv_eval.specs.Results.{Leaves};
ghost use Rattle.mv_record.specs.declared.record.Record.{Record as LeftRecord};
ghost use Rattle.mv_recorded.specs.Doing.{itself};
ghost use Rattle.mv_recorded.specs.Effect.{behind};
ghost use Rattle.mv_recorded.specs.Recorded.{own_record};
ghost use Rattle.mv_recorded.specs.Naming.{NamesColumns};
ghost use Rattle.mv_recorder.specs.Scenes.{IsSound};
ghost use Rattle.mv_recorder.specs.Sites.{site_of};
ghost use Rattle.mv_recorder.specs.Undoing.{KeepsBack, StaysBack};
ghost use Rattle.mv_recorder.specs.Running.{Leave, IsFit};

use crate::effect::effect;
use crate::reads::reads_of;
use crate::scene::Scene;
use crate::sites::Site;
use crate::slots::set_slots;
use crate::undo::{Was, write_all};
use mv_catalog::resolved::RStmt;
use mv_eval::state::{State, Stop};
use mv_record::record::{Record, Spot};
use mv_values::calls::End;
use mv_values::copied::Copied;
use mv_values::list::List;
use mv_values::memory::NoMemory;
use mv_values::schema::TableInfo;
use mv_values::txt::Txt;
use mv_values::value::Row;
use std::alloc::Global;

/// The text that a run goes through: the tables of its program, and the number of parameters of its procedure.
#[derive(Clone, Copy)]
pub(crate) struct Text<'a> {
    pub infos: &'a [TableInfo],
    pub params: usize,
}

/// A run: its state, its records, and the rows that were there before its writes.
#[derive(Drop)]
pub(crate) struct Run {
    pub state: State,
    pub records: List<Record>,
    pub undo: List<Was>,
}

/// Returns the record of a statement itself.
fn record_for(
    alloc: Global,
    text: &Text<'_>,
    statement: &RStmt,
    number: u16,
    site: &Site,
    run: &Run,
) -> Result<Record, NoMemory>
    requires sound { IsSound text.now.infos.now run.now.state.env run.now.state.tables }
    requires names { NamesColumns text.now.infos.now (out-RStmt statement.now) }
    ensures { IfOk result (λ r. r ≡ own_record text.now.infos.now text.now.params (out-RStmt statement.now) number (site_of site.now) run.now.records run.now.state) }
{
    let scene = Scene {
        infos: text.infos,
        env: &run.state.env,
        tables: &run.state.tables,
    };
    let effect = effect(alloc, &scene, statement)?;
    let records = run.records.as_slice();
    let reads = reads_of(alloc, text.params, statement, site, records)?;
    let turns = site.turns.copy(alloc)?;
    Ok(Record {
        spot: Spot {
            statement: number,
            turns,
        },
        parent: site.parent,
        reads,
        preds: effect.preds,
        sets: effect.sets,
        rows: effect.rows,
        writes: effect.writes,
        line: effect.line,
        end: effect.end,
    })
}

/// Adds a line, if there is one.
fn add_line(alloc: Global, lines: &mut List<Txt>, line: &Option<Txt>) -> Result<(), NoMemory>
    ensures { OnOk result (lines.new ≡ lines.old ++ option_to_list line.now) }
{
    match line {
        None => Ok(()),
        Some(line) => lines.push(line.copy(alloc)?),
    }
}

/// Leads a state to the one after a record.
fn follow(
    alloc: Global,
    state: &mut State,
    undo: &mut List<Was>,
    own: &Record,
) -> Result<(), NoMemory>
    ensures state { OnOk result (state.new ≡ behind own.now state.old) }
    ensures undo { OnOk result (KeepsBack undo.old state.old.tables undo.new state.new.tables) }
{
    set_slots(alloc, &mut state.env, own.sets.as_slice())?;
    write_all(alloc, &mut state.tables, undo, own.writes.as_slice())?;
    add_line(alloc, &mut state.lines, &own.line)
}

/// Returns a copy of the end of a record, if it has one.
fn end_of(alloc: Global, own: &Record) -> Result<Option<End>, NoMemory>
    ensures { IfOk result (λ end. end ≡ own.now.end) }
{
    match &own.end {
        None => Ok(None),
        Some(end) => Ok(Some(end.copy(alloc)?)),
    }
}

/// Executes a statement itself and adds its record.
pub(crate) fn add(
    alloc: Global,
    text: &Text<'_>,
    statement: &RStmt,
    number: u16,
    site: &Site,
    run: &mut Run,
) -> Result<(), Stop>
    requires sound { IsSound text.now.infos.now run.old.state.env run.old.state.tables }
    requires fit { IsFit text.now.infos.now statement.now }
    ensures records { Leave result run.new.records (run.old.records ++ own_record text.now.infos.now text.now.params (out-RStmt statement.now) number (site_of site.now) run.old.records run.old.state ∷ []) }
    ensures does { Leaves result run.new.state (itself text.now.infos.now (out-RStmt statement.now) run.old.state) }
    ensures sound { OnOk result (IsSound text.now.infos.now run.new.state.env run.new.state.tables) }
    ensures undo { StaysBack result run.old.undo run.old.state.tables run.new.undo run.new.state.tables }
{
    let own = record_for(alloc, text, statement, number, site, run)?;
    follow(alloc, &mut run.state, &mut run.undo, &own)?;
    let end = end_of(alloc, &own)?;
    run.records.push(own)?;
    match end {
        None => Ok(()),
        Some(end) => Err(Stop::Ended(end)),
    }
}

/// Returns copies of the rows of the last record.
pub(crate) fn last_rows(alloc: Global, records: &[Record]) -> Result<List<Row>, NoMemory>
    ensures { IfOk result (λ rows. (before : Seq LeftRecord) (last : LeftRecord) → records.now ≡ before ++ last ∷ [] → rows ≡ last.rows) }
{
    match records.last() {
        None => Ok(List::new(alloc)),
        Some(last) => last.rows.copy(alloc),
    }
}
