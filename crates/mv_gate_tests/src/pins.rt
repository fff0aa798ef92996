//! Collection beside a call that is held for long.

ghost use Rattle.std.specs.Prelude.{◌<◌, ◌≤◌};

use crate::scripts::{Left, prepared, run_by};
use mv_cases::accounts::{ADD, OTHERS};
use mv_cases::ensure::ensure;
use mv_edge::pace::{Moment, Pace, Point};
use mv_gate::gate::run;
use mv_journal::event::Event;
use mv_top::script::CompiledProgram;
use mv_values::calls::Options;
use mv_values::list::List;
use std::alloc::Global;
use std::hint::spin_loop;
use std::sync::Wait;
use std::sync::atomic::{AtomicU64, Ordering};
use std::test::*;
use std::thread::Threads;

/// How often a held call looks whether it may go on.
const LOOKS: u64 = 100_000_000;

/// Holds call 0 after its first statement until so many other calls were answered.
#[derive(Drop)]
struct Holding {
    others: u64,
    answered: AtomicU64,
    ran: AtomicU64,
}

impl Holding {
    fn new(others: u64) -> Holding {
        Holding {
            others,
            answered: AtomicU64::new(0),
            ran: AtomicU64::new(0),
        }
    }

    /// Waits until the other calls were answered, or for so many looks.
    fn hold(&self) {
        for _ in 0..LOOKS {
            if self.answered.load(Ordering::SeqCst) >= self.others {
                return;
            }
            spin_loop();
        }
    }
}

impl Pace for Holding {
    fn at<R: Wait>(&self, _rt: &R, point: Point) {
        match (point.call, point.moment) {
            (0, Moment::Ran) => {
                if self.ran.fetch_add(1, Ordering::SeqCst) == 0 {
                    self.hold();
                }
            }
            (_, Moment::Answered) => {
                let _before = self.answered.fetch_add(1, Ordering::SeqCst);
            }
            _ => {}
        }
    }
}

/// A procedure that reads a balance twice.
const LOOK: &str = "CREATE PROCEDURE look (:a INT) READ ONLY DECLARE :b = 0; BEGIN
  SELECT bal INTO :b FROM acc WHERE id = :a;  PRINT :b;
  SELECT bal INTO :b FROM acc WHERE id = :a;  PRINT :b;  END;
";

/// Returns a script of the accounts: one call, and then so many that add 1 to account 3.
pub(crate) fn script_of(alloc: Global, first: &str, others: u64) -> Result<String, Fail> {
    let mut text = String::from_str(alloc, ADD)?;
    text.push_str(OTHERS)?;
    text.push_str(LOOK)?;
    text.push_str(first)?;
    for _ in 0..others {
        text.push_str("CALL add(3, 1);")?;
    }
    Ok(text)
}

/// Whether any call has moved.
fn has_move(events: &List<Event>) -> bool {
    events
        .as_slice()
        .iter()
        .any(|event| matches!(event, Event::M(_)))
}

/// Whether call 0 has moved.
fn has_moved(events: &List<Event>) -> bool {
    events
        .as_slice()
        .iter()
        .any(|event| matches!(event, Event::M(0)))
}

/// How many calls are answered while a transfer is held.
const MEANWHILE: u64 = 200;

/// Runs a transfer that is held, and the other calls, by two workers. Returns the events.
fn events_of<R: Threads + Wait + Sync>(
    rt: &R,
    alloc: Global,
    horizon: Option<u32>,
) -> Result<List<Event>, Fail> {
    let text = script_of(alloc, "CALL transfer(1, 2, 10);", MEANWHILE)?;
    let options = Options { rounds: 3, horizon };
    let CompiledProgram { script, .. } = prepared(alloc, text.as_str(), options)?;
    let outcome = run(rt, alloc, script, 2, &Holding::new(MEANWHILE))?;
    Ok(outcome.journal)
}

#[test]
fn a_long_call_stays_at_its_start_without_a_horizon(rt: HostRuntime) -> Result<(), Fail> {
    let alloc = rt.alloc();
    let events = events_of(&rt, alloc, None)?;
    ensure(alloc, !has_move(&events), "no call moves")
}

#[test]
fn a_long_call_moves_with_a_horizon(rt: HostRuntime) -> Result<(), Fail> {
    let alloc = rt.alloc();
    let events = events_of(&rt, alloc, Some(1))?;
    ensure(alloc, has_moved(&events), "call 0 has to move")
}

/// How many calls three workers commit while a reader is held.
const BESIDE: u64 = 10_000;

/// What a reader prints who has seen the opening balance of account 3 twice.
const SEEN: &str = "reply 0 done\n100\n100\n";

#[test]
fn a_reader_sees_its_start_beside_ten_thousand_commits(rt: HostRuntime) -> Result<(), Fail> {
    let alloc = rt.alloc();
    let script = script_of(alloc, "CALL look(3);", BESIDE)?;
    let Left { outcome, text } = run_by(&rt, alloc, script.as_str(), 4, &Holding::new(BESIDE))?;
    ensure(
        alloc,
        text.as_slice().starts_with(SEEN.as_bytes()),
        "the reader sees its start",
    )?;
    ensure(alloc, !has_move(&outcome.journal), "no call moves")
}
