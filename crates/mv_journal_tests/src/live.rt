//! The records of a live call, read from outside of the core.

ghost use Rattle.std.specs.Prelude.{◌≡◌, [], IfOk, IfSome, OnOk};
ghost use Rattle.mv_core.specs.Calls.{IsLiveCall};
ghost use Rattle.mv_core.specs.Cores.{HasStep, AreFirstOf, records_in};

use mv_accept::accept::accept;
use mv_core::engine::Core;
use mv_top::script::compile_program;
use mv_values::calls::Options;
use mv_view::view::Refused;
use std::alloc::Global;
use std::test::Fail;

/// Executes the first statement of a live call. Returns the number of records that the call then has: the first one of
/// its full run.
fn first_step(alloc: Global, core: &mut Core, call: u32) -> Result<usize, Refused>
    requires live { IsLiveCall core.old.book.schedule call }
    requires left { HasStep core.old.book call }
    requires fresh { records_in core.old call ≡ [] }
    ensures count { IfOk result (λ n. n ≡ 1) }
    ensures first { OnOk result (AreFirstOf core.new.book call (records_in core.new call)) }
{
    core.step(alloc, call)?;
    Ok(core.records(call).len())
}

/// Begins the next call, and executes its first statement. Returns the number of records that the call then has. Returns
/// `None` if there is no call, or if it has no statement.
fn begin_and_step(alloc: Global, core: &mut Core) -> Result<Option<usize>, Refused>
    ensures { IfOk result (λ count. IfSome count (λ n. n ≡ 1)) }
{
    let Some(call) = core.begin(alloc)? else {
        return Ok(None);
    };
    if core.ended(call) {
        return Ok(None);
    }
    let count = first_step(alloc, core, call)?;
    Ok(Some(count))
}

/// Two calls, each of two statements.
const SCRIPT: &str = "CREATE TABLE t (k INT, d INT, PRIMARY KEY (k)) VALUES (1, 0);
CREATE PROCEDURE p () BEGIN UPDATE t SET d = 1 WHERE k = 1; UPDATE t SET d = 2 WHERE k = 1; END;
CALL p(); CALL p();
";

#[test]
fn a_statement_adds_one_record(rt: HostRuntime) -> Result<(), Fail> {
    let alloc = rt.alloc();
    let program = accept(alloc, SCRIPT.as_bytes()).or(Err("refused"))?;
    let options = Options {
        rounds: 3,
        horizon: None,
    };
    let prepared = compile_program(alloc, program, options)?;
    let mut core = Core::new(alloc, prepared.script)?;
    for _ in 0..2u32 {
        let count = begin_and_step(alloc, &mut core).or(Err("no statement ran"))?;
        if count != Some(1) {
            return Err("another number of records".into());
        }
    }
    Ok(())
}
