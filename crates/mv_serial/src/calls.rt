//! Runs whole calls, one after another.

ghost use Rattle.std.specs.Prelude.{◌≡◌, ◌≤◌, [], Some, All, IfOk, length, replicate};
ghost use Rattle.mv_catalog.specs.Text.{IsTable};
ghost use Rattle.mv_eval.specs.Alone.{alone};
ghost use Rattle.mv_values.specs.References.{OneKeys};
ghost use Rattle.mv_values.specs.Tables.{KeysStand};
ghost use Rattle.mv_record.specs.Databases.{IsProgram};
ghost use Rattle.mv_serial.specs.Changing.{changed_by};
ghost use Rattle.mv_eval.specs.TableAfter.{no_reply, result_of, begun, tables_left, reply_in, table_after, IsOrder, RepliesOf, OthersSilent, StoppedUnchanged};

use crate::change::{RowChange, undo_all};
use crate::statements::run_all;
use mv_catalog::resolved::{ProcInfo, Program};
use mv_eval::enter::variables_for;
use mv_eval::state::{State, Stop};
use mv_table::databases::{database_of, tables_of};
use mv_table::table::Tables;
use mv_values::calls::{Call, End, Reply};
use mv_values::list::List;
use mv_values::memory::NoMemory;
use mv_values::rows::Database;
use std::alloc::Global;

/// The result of calls that ran alone: the reply of each call by number, and the database after the last call.
#[derive(Drop)]
pub struct Serial {
    pub replies: List<Reply>,
    pub tables: Database,
}

/// The result of one call: the tables after it, and its reply.
#[derive(Drop)]
struct Left {
    tables: Tables,
    reply: Reply,
}

/// Returns the result of a call that is rolled back: its changes are undone, and its reply has no lines.
fn rolled_back(
    alloc: Global,
    tables: Tables,
    undo: List<RowChange>,
    end: End,
) -> Result<Left, NoMemory>
    ensures tables { IfOk result (λ l. l.tables ≡ changed_by undo tables) }
    ensures reply { IfOk result (λ l. l.reply ≡ record { lines = []; end = Some end }) }
{
    let (mut tables, mut undo) = (tables, undo);
    undo_all(alloc, &mut tables, &mut undo)?;
    let reply = Reply {
        lines: List::new(alloc),
        end: Some(end),
    };
    Ok(Left { tables, reply })
}

/// Runs a call of a procedure. If the call is rolled back, its changes are undone.
fn run_procedure(
    alloc: Global,
    program: &Program,
    procedure: &ProcInfo,
    call: &Call,
    tables: Tables,
) -> Result<Left, NoMemory>
    requires keys { KeysStand program.now.resolved.tables tables }
    requires each { All IsTable program.now.resolved.tables }
    requires parents { OneKeys program.now.resolved.tables }
    requires few { length program.now.resolved.tables ≤ 64 }
    ensures tables { IfOk result (λ l. l.tables ≡ tables_left tables (alone program.now.resolved.tables procedure.now.body (begun procedure.now call.now tables))) }
    ensures reply { IfOk result (λ l. l.reply ≡ reply_in (alone program.now.resolved.tables procedure.now.body (begun procedure.now call.now tables))) }
    ensures keys { IfOk result (λ l. KeysStand program.now.resolved.tables l.tables) }
{
    let env = variables_for(alloc, procedure, call)?;
    let lines = List::new(alloc);
    let mut state = State { env, tables, lines };
    let mut undo = List::new(alloc);
    let infos = program.resolved.tables.as_slice();
    let body = procedure.body.as_slice();
    let ran = run_all(alloc, infos, body, &mut state, &mut undo);
    let State {
        env: _,
        tables,
        lines,
    } = state;
    match ran {
        Ok(()) => {
            let reply = Reply { lines, end: None };
            Ok(Left { tables, reply })
        }
        Err(Stop::Memory) => Err(NoMemory),
        Err(Stop::Ended(end)) => rolled_back(alloc, tables, undo, end),
    }
}

/// Returns the result of a call that does nothing.
fn unchanged(alloc: Global, tables: Tables) -> Left
    ensures tables { result.tables ≡ tables }
    ensures reply { result.reply ≡ no_reply }
{
    let reply = Reply {
        lines: List::new(alloc),
        end: None,
    };
    Left { tables, reply }
}

/// Runs the call with this number.
fn run_call(
    alloc: Global,
    program: &Program,
    number: usize,
    tables: Tables,
) -> Result<Left, NoMemory>
    requires keys { KeysStand program.now.resolved.tables tables }
    requires each { All IsTable program.now.resolved.tables }
    requires parents { OneKeys program.now.resolved.tables }
    requires few { length program.now.resolved.tables ≤ 64 }
    ensures tables { IfOk result (λ l. l.tables ≡ tables_left tables (result_of program.now number tables)) }
    ensures reply { IfOk result (λ l. l.reply ≡ reply_in (result_of program.now number tables)) }
    ensures keys { IfOk result (λ l. KeysStand program.now.resolved.tables l.tables) }
{
    let Some(call) = program.resolved.calls.as_slice().get(number) else {
        return Ok(unchanged(alloc, tables));
    };
    let procedures = program.resolved.procedures.as_slice();
    match procedures.get(call.procedure as usize) {
        Some(procedure) => run_procedure(alloc, program, procedure, call, tables),
        None => Ok(unchanged(alloc, tables)),
    }
}

/// Returns this many replies without lines.
fn silent(alloc: Global, count: usize) -> Result<List<Reply>, NoMemory>
    ensures { IfOk result (λ replies. replies ≡ replicate count no_reply) }
{
    let mut replies = List::new(alloc);
    for _call in 0..count {
        replies.push(Reply {
            lines: List::new(alloc),
            end: None,
        })?;
    }
    Ok(replies)
}

/// Runs calls alone, in this order. A call that isn't in the order has a reply without lines.
pub fn run_alone(alloc: Global, program: &Program, order: &[u32]) -> Result<Serial, NoMemory>
    requires whole { IsProgram program.now }
    requires order { IsOrder program.now order.now }
    ensures tables { IfOk result (λ s. s.tables ≡ table_after program.now order.now (length order.now)) }
    ensures len { IfOk result (λ s. length s.replies ≡ length program.now.resolved.calls) }
    ensures replies { IfOk result (λ s. RepliesOf program.now order.now s.replies) }
    ensures others { IfOk result (λ s. OthersSilent program.now order.now s.replies) }
    ensures stopped { IfOk result (λ s. StoppedUnchanged program.now order.now s.replies) }
{
    let mut tables = tables_of(alloc, &program.opening)?;
    let mut replies = silent(alloc, program.resolved.calls.len())?;
    for i in 0..order.len() {
        let number = order[i] as usize;
        let Left {
            tables: after,
            reply,
        } = run_call(alloc, program, number, tables)?;
        tables = after;
        replies.set(number, reply);
    }
    let tables = database_of(alloc, tables)?;
    Ok(Serial { replies, tables })
}
