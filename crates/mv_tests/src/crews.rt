//! Runs by several workers.

use crate::whole::{Edges, Parts, SOUND, joined, run_text, runs_at};
use mv_cases::accounts::{ADD, OTHERS, TRANSFERS};
use mv_cases::ensure::ensure;
use mv_edge::pace::{Moment, Pace, Point};
use mv_top::status::Status;
use std::alloc::Global;
use std::hint::spin_loop;
use std::sync::Wait;
use std::sync::atomic::{AtomicU64, Ordering};
use std::test::*;
use std::thread::Threads;

/// How often a held call looks whether it may go on.
const LOOKS: u64 = 100_000_000;

/// Holds calls at each attempt to commit, so that they commit in a given order. Other calls aren't held.
#[derive(Drop)]
struct InOrder {
    order: &'static [u32],
    /// How many calls of the order have committed.
    committed: AtomicU64,
}

impl InOrder {
    fn new(order: &'static [u32]) -> InOrder {
        InOrder {
            order,
            committed: AtomicU64::new(0),
        }
    }

    /// Whether a call is the next of the order to commit.
    fn is_next(&self, call: u32) -> bool {
        let committed = self.committed.load(Ordering::SeqCst);
        match self.order.get(committed as usize) {
            Some(next) => *next == call,
            None => false,
        }
    }

    /// Waits until the calls before this one have committed, or for so many looks.
    fn hold(&self, call: u32) {
        for _ in 0..LOOKS {
            if self.is_next(call) {
                return;
            }
            spin_loop();
        }
    }

    /// Notes that a call has committed.
    fn note(&self, call: u32) {
        if self.is_next(call) {
            let committed = self.committed.load(Ordering::SeqCst);
            self.committed
                .store(committed.saturating_add(1), Ordering::SeqCst);
        }
    }

    fn have_all_answered(&self) -> bool {
        self.committed.load(Ordering::SeqCst) == self.order.len() as u64
    }
}

impl Pace for InOrder {
    fn at<R: Wait>(&self, _rt: &R, point: Point) {
        match point.moment {
            Moment::Before if self.order.contains(&point.call) => self.hold(point.call),
            Moment::Answered => self.note(point.call),
            _ => {}
        }
    }
}

/// An order of commits, the words of a run, its calls, and the parts of its text.
type Crew = (&'static [u32], &'static [&'static str], &'static str, Parts);

const TWO: &[&str] = &["run", "--threads", "2"];

const THREE: &[&str] = &["run", "--threads", "3"];

/// Call 1 commits while call 0 is held, and the worker of call 0 repairs and commits it.
const REPAIRED: Parts = [
    "reply 0 done\nreply 1 done\n",
    "1 1 starts 0 runs 5\n2 0 starts 0,1 runs 5+1\n",
    "B 0\nB 1\nC 1\nA 0\nC 0\n",
    "table acc\n0,2,\n1,90,\n2,110,\n3,90,\n4,110,\n",
];

const CREWS: &[Crew] = &[
    (&[1, 0], TWO, TRANSFERS, REPAIRED),
    (&[1, 0], THREE, TRANSFERS, REPAIRED),
    // A call whose first run has more statements than its repair.
    (
        &[1, 0],
        TWO,
        "CALL transfer(1, 2, 60); CALL transfer(1, 3, 60);",
        [
            "reply 0 rolled back 'no funds'\nreply 1 done\n",
            "1 1 starts 0 runs 5\n2 0 starts 0,1 runs 5+3\n",
            "B 0\nB 1\nC 1\nA 0\nC 0\n",
            "table acc\n0,1,\n1,40,\n2,100,\n3,160,\n4,100,\n",
        ],
    ),
    // Three calls that have all begun before the last of them commits, then the second, and then the first.
    (
        &[2, 1, 0],
        THREE,
        "CALL transfer(1, 2, 10); CALL transfer(3, 4, 10); CALL transfer(2, 3, 10);",
        [
            "reply 0 done\nreply 1 done\nreply 2 done\n",
            "1 2 starts 0 runs 5\n2 1 starts 0,1 runs 5+4\n3 0 starts 0,2 runs 5+2\n",
            "B 0\nB 1\nB 2\nC 2\nA 1\nC 1\nA 0\nC 0\n",
            "table acc\n0,3,\n1,90,\n2,100,\n3,100,\n4,110,\n",
        ],
    ),
    // A call that begins first and stays behind, until the other worker has committed all others.
    (
        &[3, 0],
        TWO,
        "CALL transfer(1, 2, 10); CALL add(3, 5); CALL add(1, 7); CALL transfer(3, 4, 1);",
        [
            "reply 0 done\nreply 1 done\n105\nreply 2 done\n107\nreply 3 done\n",
            "1 1 starts 0 runs 4\n2 2 starts 1 runs 4\n3 3 starts 2 runs 5\n4 0 starts 0,3 runs 5+4\n",
            "B 0\nB 1\nC 1\nB 2\nC 2\nB 3\nC 3\nA 0\nC 0\n",
            "table acc\n0,2,\n1,97,\n2,110,\n3,104,\n4,101,\n",
        ],
    ),
];

/// Checks that workers that are held to an order write this text.
fn commit_in<R: Threads + Wait + Sync>(
    rt: &R,
    alloc: Global,
    order: &'static [u32],
    words: &[&str],
    input: &str,
    text: &str,
) -> Result<(), Fail> {
    let pace = InOrder::new(order);
    let want = (Status::Done, text);
    runs_at(rt, alloc, &pace, words, input.as_bytes(), SOUND, want)?;
    ensure(alloc, pace.have_all_answered(), "no answer")
}

/// Checks that workers that are held to an order write the text of these parts for calls on accounts.
fn accounts_commit_in<R: Threads + Wait + Sync>(
    rt: &R,
    alloc: Global,
    crew: &Crew,
) -> Result<(), Fail> {
    let (order, words, calls, parts) = *crew;
    let input = joined(alloc, &[ADD, OTHERS, calls])?;
    let text = run_text(alloc, &parts)?;
    commit_in(rt, alloc, order, words, input.as_str(), text.as_str())
}

#[test]
fn held_calls_commit_in_an_order(rt: HostRuntime) -> Result<(), Fail> {
    for crew in CREWS {
        accounts_commit_in(&rt, rt.alloc(), crew)?;
    }
    Ok(())
}

/// How many calls overtake call 0. The workers collect after commit 64, when call 0 is live.
const OVERTAKING: u32 = 65;

fn overtaking_script(alloc: Global) -> Result<String, Fail> {
    let mut script = joined(alloc, &[ADD, "CALL add(1, 5);"])?;
    for _ in 0..OVERTAKING {
        script.push_str("CALL add(2, 1);")?;
    }
    Ok(script)
}

fn overtaking_replies(alloc: Global) -> Result<String, Fail> {
    let mut replies = String::from_str(alloc, "reply 0 done\n105\n")?;
    for call in 1..=OVERTAKING {
        write!(replies, "reply {call} done\n{}\n", call.saturating_add(100))?;
    }
    Ok(replies)
}

/// Returns the history of calls that overtake call 0, of which it has this line.
fn overtaking_history(alloc: Global, line: &str) -> Result<String, Fail> {
    let mut history = String::new(alloc);
    for call in 1..=OVERTAKING {
        let start = call.saturating_sub(1);
        write!(history, "{call} {call} starts {start} runs 4\n")?;
    }
    history.push_str(line)?;
    Ok(history)
}

/// Returns the journal of calls that overtake call 0, and of its last events.
fn overtaking_journal(alloc: Global, last: &str) -> Result<String, Fail> {
    let mut journal = String::from_str(alloc, "B 0\n")?;
    for call in 1..=OVERTAKING {
        write!(journal, "B {call}\nC {call}\n")?;
    }
    journal.push_str(last)?;
    Ok(journal)
}

/// The table after calls that overtake call 0.
const OVERTAKEN: &str = "table acc\n0,0,\n1,105,\n2,165,\n3,100,\n4,100,\n";

/// The line of a moved call 0 in the history, and its last events.
const MOVED: (&str, &str) = ("66 0 starts 0,65 runs -+4m\n", "M 0\nC 0\n");

/// Those of a call 0 that isn't moved.
const STILL: (&str, &str) = ("66 0 starts 0 runs 4\n", "C 0\n");

/// Commit 64 leaves a horizon of 1 behind at its collection, and one of 64 not.
const HORIZONS: &[(&[&str], (&str, &str))] = &[
    (&["run", "--threads", "2", "--horizon", "1"], MOVED),
    (&["run", "--threads=2", "--horizon=1", "--rounds=0"], MOVED),
    (&["run", "--threads", "2", "--horizon", "64"], STILL),
];

/// Returns the text of calls that overtake call 0, of which the history has this line and the journal these last events.
fn overtaking_text(alloc: Global, line: &str, last: &str) -> Result<String, Fail> {
    let replies = overtaking_replies(alloc)?;
    let history = overtaking_history(alloc, line)?;
    let journal = overtaking_journal(alloc, last)?;
    let parts = [
        replies.as_str(),
        history.as_str(),
        journal.as_str(),
        OVERTAKEN,
    ];
    run_text(alloc, &parts)
}

#[test]
fn a_call_behind_the_horizon_is_moved(rt: HostRuntime) -> Result<(), Fail> {
    let alloc = rt.alloc();
    let input = overtaking_script(alloc)?;
    for (words, (line, last)) in HORIZONS {
        let text = overtaking_text(alloc, line, last)?;
        commit_in(
            &rt,
            alloc,
            &[OVERTAKING, 0],
            words,
            input.as_str(),
            text.as_str(),
        )?;
    }
    Ok(())
}

/// The summary of a New-Order of six lines and a delivery, which is the same for either order.
const SUMMARY: &str = "tpcc warehouses 1 calls 2 seed 1
new_order 1 rolled back 0
payment 0
order_status 0
delivery 1
stock_level 0
orders 301
order_lines 2966
sum w_ytd 30000000
sum h_amount 300000
sum s_ytd 43
sum s_order_cnt 6
sum s_remote_cnt 0
consistent yes
end
";

/// A source whose first read fails, and a sink with enough room.
const UNREAD: Edges = (&[0], &[], 1_000_000);

#[test]
fn calls_of_a_load_overlap(rt: HostRuntime) -> Result<(), Fail> {
    let pace = InOrder::new(&[1, 0]);
    let words = &["tpcc", "--calls", "2", "--threads", "2"];
    let want = (Status::Done, SUMMARY);
    runs_at(&rt, rt.alloc(), &pace, words, b"", UNREAD, want)?;
    ensure(rt.alloc(), pace.have_all_answered(), "no answer")
}
