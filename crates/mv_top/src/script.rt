//! What a run needs of a program.

ghost use Rattle.std.specs.Prelude.{◌≡◌, ◌≤◌, length, IfOk};
ghost use Rattle.mv_accept.specs.Accepting.{most_calls};
ghost use Rattle.mv_catalog.specs.declared.resolved.Program.{Program as Whole};
ghost use Rattle.mv_record.specs.Databases.{IsProgram};
ghost use Rattle.mv_script.specs.Scripts.{IsCompiledScript, batch_of as script_batch};
ghost use Rattle.mv_report.specs.History.{batch_of};

use mv_catalog::resolved::{Program, Resolved};
use mv_compile::compile::compile;
use mv_script::script::CompiledScript;
use mv_values::calls::Options;
use mv_values::copied::Copied;
use mv_values::list::List;
use mv_values::memory::NoMemory;
use mv_values::rows::Database;
use mv_values::schema::TableInfo;
use std::alloc::Global;

/// A program as a run needs it: its script, with a graph for each procedure, and its tables, for the report.
#[derive(Drop)]
pub struct CompiledProgram {
    pub script: CompiledScript,
    pub tables: List<TableInfo>,
}

/// Compiles the procedures of an accepted program. The script's batch is that of the program. Fails with `NoMemory` if
/// memory runs out. Takes time quadratic in the number of a procedure's statements.
pub fn compile_program(
    alloc: Global,
    program: Program,
    options: Options,
) -> Result<CompiledProgram, NoMemory>
    requires whole { IsProgram program }
    requires few { length program.resolved.calls ≤ most_calls }
    ensures script { IfOk result (λ p. IsCompiledScript p.script) }
    ensures batch { IfOk result (λ p. script_batch p.script ≡ batch_of program options) }
    ensures count { IfOk result (λ p. length p.script.calls ≡ length program.resolved.calls) }
    ensures tables { IfOk result (λ p. p.tables ≡ program.resolved.tables) }
{
    let graphs = compile(alloc, &program.resolved)?;
    let Program { resolved, opening } = program;
    let Resolved { tables, calls, .. } = resolved;
    Ok(CompiledProgram {
        script: CompiledScript {
            graphs,
            calls,
            opening,
            options,
        },
        tables,
    })
}

/// Compiles the procedures of a program, and copies its calls. The script's batch is that of the program. Fails and costs
/// as `compile_program` does.
pub(crate) fn script_of(
    alloc: Global,
    resolved: &Resolved,
    opening: Database,
    options: Options,
) -> Result<CompiledScript, NoMemory>
    requires whole { let program : Whole = record { resolved = resolved.now; opening = opening } in IsProgram program }
    requires few { length resolved.now.calls ≤ most_calls }
    ensures script { IfOk result IsCompiledScript }
    ensures batch { let program : Whole = record { resolved = resolved.now; opening = opening } in IfOk result (λ script. script_batch script ≡ batch_of program options) }
    ensures count { IfOk result (λ script. length script.calls ≡ length resolved.now.calls) }
{
    let graphs = compile(alloc, resolved)?;
    Ok(CompiledScript {
        graphs,
        calls: resolved.calls.copy(alloc)?,
        opening,
        options,
    })
}
