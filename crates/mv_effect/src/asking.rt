//! Writes what statements ask and how they end into the log of their call.

ghost use Rattle.std.specs.Prelude.{◌≡◌, ◌<◌, ◌∷◌, ◌++◌, [], OnOk, OnErr};
ghost use Rattle.mv_recorded.specs.Effects.{only_end};
ghost use Rattle.mv_log.specs.Logged.{no_effect};
ghost use Rattle.mv_effect.specs.Asking.{asked, asking, AsksOne};
ghost use Rattle.mv_effect.specs.Logging.{BeginsPred, IsBlank, with_preds, without_effect};
ghost use Rattle.mv_effect.specs.Stops.{EndsBy};
ghost use Rattle.mv_effect.specs.Looking.{OnlyAsks};
ghost use Rattle.mv_view.specs.Viewing.{Sight};

use crate::numbers::narrow;
use mv_eval::state::Stop;
use mv_log::log::Log;
use mv_values::calls::End;
use mv_values::list::List;
use mv_values::memory::NoMemory;
use mv_values::op::Op;
use mv_values::pred::{Pred, Test};
use mv_values::pred_ref::PredRef;
use mv_values::value::Value;
use mv_view::view::Refused;

/// Returns what stands in a list in place of a test that was moved out.
fn no_test() -> Test {
    Test {
        column: 0,
        key_place: None,
        op: Op::Eq,
        value: Value::Int(0),
    }
}

/// Moves tests into the next predicate.
#[tactic(auto, using(crate::proofs::Moving::moved, crate::proofs::Moving::moved_len, crate::proofs::Moving::moved_all))]
fn push_tests(log: &mut Log, tests: List<Test>) -> Result<(), NoMemory>
    ensures ok { OnOk result (log.new ≡ (let was = log.old in record was { tests = was.tests ++ tests })) }
    ensures err { OnErr result (without_effect log.new ≡ without_effect log.old) }
{
    let mut tests = tests;
    for at in 0..tests.len() {
        log.push_test(tests.replace(at, no_test()))?;
    }
    Ok(())
}

/// Asks for the rows of a table by the tests and columns that were added. The open effect has nothing yet.
pub(crate) fn ask(log: &mut Log, table: u16) -> Result<(), NoMemory>
    requires table { table < 256 }
    requires effect { log.old.effect ≡ no_effect }
    ensures ok { OnOk result (log.new ≡ asking log.old (record { table = table; tests = log.old.tests; columns = log.old.columns })) }
    ensures err { OnErr result (without_effect log.new ≡ without_effect log.old) }
{
    log.push_pred(narrow(table))
}

/// Lends the one predicate that the open effect asks.
pub(crate) fn asked_pred(log: &Log) -> PredRef<'_>
    requires { AsksOne log.now }
    ensures { result ≡ asked log.now }
{
    log.last_pred()
}

/// Adds one more predicate to the open effect.
pub(crate) fn ask_more(log: &mut Log, pred: Pred) -> Result<(), NoMemory>
    requires { BeginsPred log.old }
    ensures ok { OnOk result (log.new ≡ with_preds log.old (log.old.effect.preds ++ pred ∷ [])) }
    ensures err { OnErr result (without_effect log.new ≡ without_effect log.old) }
{
    push_tests(log, pred.tests)?;
    log.push_columns(pred.columns.as_slice())?;
    log.push_pred(pred.table)
}

/// Ends the call in the open effect, of which the predicates alone stay.
pub(crate) fn end(log: &mut Log, end: End) -> Result<(), NoMemory>
    ensures ok { OnOk result (log.new ≡ record log.old { effect = only_end log.old.effect.preds end }) }
    ensures err { OnErr result (without_effect log.new ≡ without_effect log.old) }
{
    log.keep_preds();
    log.push_end(end)
}

/// Ends the call in the open effect of a statement that was stopped. Its predicates alone stay. Fails if the statement
/// was stopped because memory ran out.
pub(crate) fn stop(log: &mut Log, stop: Stop) -> Result<(), NoMemory>
    ensures ended { OnOk result (EndsBy log.old.effect.preds stop log.old log.new) }
    ensures err { OnErr result (without_effect log.new ≡ without_effect log.old) }
{
    match stop {
        Stop::Memory => Err(NoMemory),
        Stop::Ended(reason) => end(log, reason),
    }
}

/// Ends the call in the open effect of a statement that was stopped before it asked anything. Fails if the statement was
/// stopped because memory ran out.
#[tactic(auto, using(crate::proofs::Ends::ends_unasked))]
pub(crate) fn stop_early(log: &mut Log, stopped: Stop) -> Result<(), NoMemory>
    requires { IsBlank log.old }
    ensures ended { OnOk result (EndsBy [] stopped log.old log.new) }
    ensures err { OnErr result (without_effect log.new ≡ without_effect log.old) }
{
    stop(log, stopped)?;
    Ok(())
}

/// Ends the call in the open effect of a statement that was stopped while it asked. So it asks nothing. Fails if the
/// statement was stopped because memory ran out.
pub(crate) fn stop_after(log: &mut Log, stopped: Stop) -> Result<(), Refused>
    ensures ended { OnOk result (EndsBy [] stopped (without_effect log.old) log.new) }
    ensures err { OnErr result (without_effect log.new ≡ without_effect log.old) }
    ensures view { (sight : Sight) → OnlyAsks sight sight result }
{
    log.drop_effect();
    stop_early(log, stopped)?;
    Ok(())
}

/// As `stop_early`, for a statement that may ask its view.
pub(crate) fn stop_unasked(log: &mut Log, stopped: Stop) -> Result<(), Refused>
    requires { IsBlank log.old }
    ensures ended { OnOk result (EndsBy [] stopped log.old log.new) }
    ensures err { OnErr result (without_effect log.new ≡ without_effect log.old) }
    ensures view { (sight : Sight) → OnlyAsks sight sight result }
{
    stop_early(log, stopped)?;
    Ok(())
}
