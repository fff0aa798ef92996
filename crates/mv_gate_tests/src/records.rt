//! Paces that write down what the workers tell them.

use mv_edge::pace::{Moment, Pace, Point};
use mv_journal::outcome::{Mark, Outcome, Round};
use std::alloc::Global;
use std::hint::spin_loop;
use std::sync::atomic::{AtomicU64, Ordering};
use std::sync::{Mutex, Wait};
use std::test::Fail;

/// Writes down the points that the workers reach, in their order.
#[derive(Drop)]
pub(crate) struct Record {
    points: Mutex<Vec<Point>>,
}

impl Record {
    pub(crate) fn new(alloc: Global) -> Record {
        Record {
            points: Mutex::new(Vec::new(alloc)),
        }
    }

    /// Adds a point. If memory runs out, the point is missing.
    fn add<R: Wait>(&self, rt: &R, point: Point) {
        let _added = self.points.lock(rt).push(point);
    }

    pub(crate) fn into_points(self) -> Vec<Point> {
        self.points.into_inner()
    }
}

impl Pace for Record {
    fn at<R: Wait>(&self, rt: &R, point: Point) {
        self.add(rt, point);
    }
}

/// How often a held call looks whether it may go on.
const LOOKS: u64 = 100_000_000;

/// Holds call 0 at each attempt to commit, until call 1 has committed. Writes down the points too.
#[derive(Drop)]
pub(crate) struct Overtaking {
    record: Record,
    /// How many times the pace was told that call 1 has committed.
    committed: AtomicU64,
}

impl Overtaking {
    pub(crate) fn new(alloc: Global) -> Overtaking {
        Overtaking {
            record: Record::new(alloc),
            committed: AtomicU64::new(0),
        }
    }

    /// Waits until call 1 has committed, or for so many looks.
    fn hold(&self) {
        for _ in 0..LOOKS {
            if self.committed.load(Ordering::SeqCst) > 0 {
                return;
            }
            spin_loop();
        }
    }

    pub(crate) fn into_points(self) -> Vec<Point> {
        self.record.into_points()
    }
}

impl Pace for Overtaking {
    fn at<R: Wait>(&self, rt: &R, point: Point) {
        self.record.add(rt, point);
        match (point.call, point.moment) {
            (0, Moment::Before) => self.hold(),
            (1, Moment::Answered) => self.committed.store(1, Ordering::SeqCst),
            _ => {}
        }
    }
}

/// Returns the letter that stands for a moment.
fn letter(moment: Moment) -> &'static str {
    match moment {
        Moment::Begun => "B",
        Moment::Ran => "R",
        Moment::Before => "T",
        Moment::Answered => "A",
    }
}

/// Returns the letters of the moments of a call.
pub(crate) fn letters_of(alloc: Global, points: &[Point], call: u32) -> Result<String, Fail> {
    let mut letters = String::new(alloc);
    for point in points {
        if point.call == call {
            letters.push_str(letter(point.moment))?;
        }
    }
    Ok(letters)
}

/// Returns the letters that a call with these rounds gives: it begins, runs each of its statements, tries to end once
/// a round, and is answered once. A repair that commits in the same step has no try of its own.
fn letters_for(alloc: Global, rounds: &[Round]) -> Result<String, Fail> {
    let mut letters = String::from_str(alloc, "B")?;
    let Some(first) = rounds.first() else {
        return Err("no round".into());
    };
    for _ in 0..first.count.unwrap_or(0) {
        letters.push_str("R")?;
    }
    for round in rounds {
        match round.mark {
            Mark::Exclusive => {}
            Mark::Plain | Mark::Moved => letters.push_str("T")?,
        }
    }
    letters.push_str("A")?;
    Ok(letters)
}

/// Whether one worker reached all points of a call.
fn has_one_worker(points: &[Point], call: u32) -> bool {
    let mut own = points.iter().filter(|point| point.call == call);
    let Some(first) = own.next() else {
        return true;
    };
    own.all(|point| point.worker == first.worker)
}

/// Whether the points are those of the calls that are done, for each call by one worker, and no more.
pub(crate) fn are_points_of(
    alloc: Global,
    points: &[Point],
    outcome: &Outcome,
) -> Result<bool, Fail> {
    let mut count = 0usize;
    for line in outcome.history.as_slice() {
        let letters = letters_of(alloc, points, line.call)?;
        let want = letters_for(alloc, line.rounds.as_slice())?;
        if letters != want || !has_one_worker(points, line.call) {
            return Ok(false);
        }
        count = count.saturating_add(letters.len());
    }
    Ok(count == points.len())
}

/// Whether worker 0 reached all points, those of each call before those of the next.
pub(crate) fn are_in_turn(points: &[Point]) -> bool {
    let mut call = 0;
    for point in points {
        if point.worker != 0 || point.call < call {
            return false;
        }
        call = point.call;
    }
    true
}
