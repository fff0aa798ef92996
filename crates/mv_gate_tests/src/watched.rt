//! Workers beside a reader, who takes a start after each commit and reads there.

ghost use Rattle.std.specs.Prelude.{◌≡◌, ◌≢◌, None};
ghost use Rattle.mv_seats.specs.Knowing.{Plain};

use mv_edge::pace::{Moment, Pace, Point};
use mv_gate::gate::{Gate, worker};
use mv_grace::grace::Naming;
use mv_seats::board::Making;
use mv_seats::pass::Pass;
use mv_shards::start::Start;
use mv_values::list::List;
use mv_values::memory::NoMemory;
use mv_values::pred::Pred;
use mv_values::pred_ref::PredRef;
use mv_values::rows::Rows;
use mv_view::view::Refused;
use std::alloc::Global;
use std::hint::spin_loop;
use std::sync::Wait;
use std::sync::atomic::{AtomicU64, Ordering};
use std::test::Fail;
use std::thread;
use std::thread::Threads;

/// How often a held worker looks whether it may go on.
const LOOKS: u64 = 100_000_000;

/// Holds each worker after a commit, until the reader has taken a start after that. The other workers go on.
#[derive(Drop)]
struct Watched {
    /// The number of workers, which is that of the reader's post too.
    workers: u32,
    /// How many commits have asked for a start.
    asked: AtomicU64,
    /// For how many of them one was taken.
    answered: AtomicU64,
    /// How many workers have ended.
    ended: AtomicU64,
}

impl Watched {
    fn new(workers: u32) -> Watched {
        Watched {
            workers,
            asked: AtomicU64::new(0),
            answered: AtomicU64::new(0),
            ended: AtomicU64::new(0),
        }
    }

    /// Asks for a start, and waits until it was taken, or for so many looks.
    fn hold(&self) {
        let mine = self.asked.fetch_add(1, Ordering::SeqCst);
        for _ in 0..LOOKS {
            if self.answered.load(Ordering::SeqCst) > mine {
                return;
            }
            spin_loop();
        }
    }

    /// Returns how many commits have asked, if there is no start for one of them.
    fn waiting(&self) -> Option<u64> {
        let asked = self.asked.load(Ordering::SeqCst);
        if asked == self.answered.load(Ordering::SeqCst) {
            return None;
        }
        Some(asked)
    }

    /// Lets those go on that had asked by then.
    fn answer(&self, asked: u64) {
        self.answered.store(asked, Ordering::SeqCst);
    }

    /// Notes that a worker has ended.
    fn end(&self) {
        let _before = self.ended.fetch_add(1, Ordering::SeqCst);
    }

    fn have_all_ended(&self) -> bool {
        self.ended.load(Ordering::SeqCst) == u64::from(self.workers)
    }
}

impl Pace for Watched {
    fn at<R: Wait>(&self, _rt: &R, point: Point) {
        match point.moment {
            Moment::Answered => self.hold(),
            _ => {}
        }
    }
}

/// A start, and the rows that it has shown.
#[derive(Drop)]
pub(crate) struct Reading<N: Making> {
    pub(crate) start: Start<N>,
    pub(crate) rows: Rows,
}

/// The post of a worker, or of the reader: its pass, its number, and what it has read. A horizon is given.
#[derive(Drop)]
struct Post<N: Making> {
    pass: Pass<N>,
    number: u32,
    readings: Vec<Reading<N>>,
    ghost plain: { pass.role ≡ Plain },
    ghost horizon: { N.script.options.horizon ≢ None },
}

fn post_of<N: Making>(alloc: Global, pass: Pass<N>, number: u32) -> Post<N>
    requires plain { pass.role ≡ Plain }
    requires horizon { N.script.options.horizon ≢ None }
{
    Post {
        pass,
        number,
        readings: Vec::new(alloc),
    }
}

/// Returns all rows of the accounts at a start. It goes over the shards, one after another.
pub(crate) fn all_rows<N: Making + Naming, R: Wait>(
    rt: &R,
    alloc: Global,
    gate: &Gate<N>,
    start: &mut Start<N>,
) -> Result<Rows, Refused>
    requires { N.script.options.horizon ≢ None }
{
    let pred = Pred {
        table: 0,
        tests: List::new(alloc),
        columns: List::new(alloc),
    };
    gate.shards()
        .rows_at(rt, alloc, gate.board(), start, &PredRef::of(&pred))
}

/// Takes a start, and reads there.
fn read<N: Making + Naming, R: Wait>(
    rt: &R,
    alloc: Global,
    gate: &Gate<N>,
    pass: &mut Pass<N>,
) -> Result<Reading<N>, Refused>
    requires plain { pass.old.role ≡ Plain }
    requires horizon { N.script.options.horizon ≢ None }
    ensures { pass.new ≡ pass.old }
{
    let mut start = gate.snapshot(rt, alloc, pass)?;
    let rows = all_rows(rt, alloc, gate, &mut start)?;
    Ok(Reading { start, rows })
}

/// Takes a start for each commit that asks for one, until all workers have ended. If memory runs out, it takes no more.
fn read_beside<N: Making + Naming, R: Wait>(
    rt: &R,
    alloc: Global,
    gate: &Gate<N>,
    post: &mut Post<N>,
    watched: &Watched,
) {
    for _ in rt.forever() {
        let Some(asked) = watched.waiting() else {
            if watched.have_all_ended() {
                return;
            }
            spin_loop();
            continue;
        };
        let Ok(reading) = read(rt, alloc, gate, &mut post.pass) else {
            return;
        };
        if post.readings.push(reading).is_err() {
            return;
        }
        watched.answer(asked);
    }
    unreachable!()
}

/// Works at a post, as the reader or as a worker.
fn work_at<N: Making + Naming, R: Threads + Wait + Sync>(
    rt: &R,
    alloc: Global,
    gate: &Gate<N>,
    post: &mut Post<N>,
    watched: &Watched,
) {
    if post.number == watched.workers {
        read_beside(rt, alloc, gate, post, watched);
        watched.answer(u64::MAX);
        return;
    }
    let number = post.number;
    let _left = worker(rt, alloc, gate, &mut post.pass, number, watched);
    watched.end();
}

/// Works at each post, beside each other. The reader's post is the last one.
fn work_at_each<N: Making + Naming + Send + Sync, R: Threads + Wait + Sync>(
    rt: &R,
    alloc: Global,
    gate: &Gate<N>,
    posts: &mut [Post<N>],
    workers: u32,
) {
    let watched = &Watched::new(workers);
    let count = workers as usize + 1;
    thread::for_each_mut(
        rt,
        posts,
        count,
        &|_, post: &mut Post<N>| work_at(rt, alloc, gate, post, watched),
    );
}

/// Runs the calls of a gate by so many workers beside a reader. Returns what the reader has read, in turn.
pub(crate) fn readings_beside<N: Making + Naming + Send + Sync, R: Threads + Wait + Sync>(
    rt: &R,
    alloc: Global,
    gate: &Gate<N>,
    mut pass: Pass<N>,
    workers: u32,
) -> Result<Vec<Reading<N>>, Fail>
    requires plain { pass.role ≡ Plain }
    requires horizon { N.script.options.horizon ≢ None }
{
    let mut posts = Vec::new(alloc);
    for number in 0..=workers {
        let mine = pass.note(gate.board())?;
        posts.push(post_of(alloc, mine, number))?;
    }
    work_at_each(rt, alloc, gate, posts.as_mut_slice(), workers);
    match posts.pop() {
        Some(Post { readings, .. }) => Ok(readings),
        None => Err("no reader".into()),
    }
}
