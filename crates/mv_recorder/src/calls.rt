//! Runs the calls of a program.

ghost use Rattle.std.specs.Prelude.{◌≡◌, [], IfOk};
ghost use Rattle.mv_eval.specs.TableAfter.{no_reply, result_of, reply_in};
ghost use Rattle.mv_record.specs.Databases.{IsDatabaseOf, IsProgram};
ghost use Rattle.mv_recorded.specs.Recorded.{records};

use crate::recorder::{Recording, record_call};
use mv_catalog::resolved::Program;
use mv_table::table::Tables;
use mv_values::calls::Reply;
use mv_values::list::List;
use mv_values::memory::NoMemory;
use std::alloc::Global;

/// Returns the run of a call that does nothing.
fn idle(alloc: Global, tables: Tables) -> Recording
    ensures records { result.records ≡ [] }
    ensures reply { result.reply ≡ no_reply }
    ensures tables { result.tables ≡ tables }
{
    Recording {
        records: List::new(alloc),
        reply: Reply {
            lines: List::new(alloc),
            end: None,
        },
        tables,
    }
}

/// Runs the call with this number on tables of its program alone, and returns its records and its reply. All its writes
/// are taken back, so the tables are as before. A call that doesn't exist does nothing. Fails if memory runs out.
pub fn run_call(
    alloc: Global,
    program: &Program,
    number: u32,
    tables: Tables,
) -> Result<Recording, NoMemory>
    requires whole { IsProgram program.now }
    requires database { IsDatabaseOf program.now.resolved.tables tables }
    ensures records { IfOk result (λ r. r.records ≡ records program.now number tables) }
    ensures reply { IfOk result (λ r. r.reply ≡ reply_in (result_of program.now number tables)) }
    ensures tables { IfOk result (λ r. r.tables ≡ tables) }
{
    let Some(call) = program.resolved.calls.as_slice().get(number as usize) else {
        return Ok(idle(alloc, tables));
    };
    let procedures = program.resolved.procedures.as_slice();
    match procedures.get(call.procedure as usize) {
        Some(procedure) => {
            let infos = program.resolved.tables.as_slice();
            record_call(alloc, infos, procedure, call, tables)
        }
        None => Ok(idle(alloc, tables)),
    }
}
