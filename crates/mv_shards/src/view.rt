//! A view of shards.

ghost use Rattle.std.specs.Prelude.{◌≡◌, ◌<◌, ◌^◌, length};
ghost use Rattle.mv_view.specs.Viewing.{Sight};
ghost use Rattle.mv_seats.specs.Knowing.{Plain};
ghost use Rattle.mv_shards.specs.Parts.{eight};
ghost use Rattle.mv_shards.specs.Kept.{IsLow};
ghost use Rattle.mv_shards.specs.Reads.{MayRead, sight_at, answers_after, low_after};
ghost use Rattle.mv_shards.specs.Leaves.{NeedPins, IsLeave};

use crate::leave::Leave;
use crate::notes::note;
use crate::shards::Shards;
use crate::start::Start;
use mv_grace::grace::Naming;
use mv_seats::board::{Board, Making};
use mv_seats::pass::Pass;
use mv_table::found::Found;
use mv_table::found_rows::FoundRows;
use mv_table::scan::Direction;
use mv_values::lent::Lent;
use mv_values::pred_ref::PredRef;
use mv_values::value::Key;
use mv_view::key_set::KeySet;
use mv_view::view::{Refused, View};
use std::alloc::Global;
use std::marker::Model;
use std::sync::Wait;

/// A view of the tables at a start, of the history that its own pass has seen, for a reader who shows this. Each look-up
/// takes the lock of a shard.
#[derive(Drop)]
pub struct ReaderView<'a, N: Making + Naming, W, P: Leave<N, W>, R: Wait> {
    rt: &'a R,
    shards: &'a Shards<N>,
    board: &'a Board<N>,
    word: &'a W,
    pass: Pass<N>,
    leave: P,
    start: u32,
    stale_answers: u64,
    last_low: u32,
    rows_calls: u64,
    row_calls: u64,
}

impl<'a, N: Making + Naming, W, P: Leave<N, W>, R: Wait> Model for ReaderView<'a, N, W, P, R> {
    ghost use Rattle.std.specs.Prelude.{length};
    ghost use Rattle.std.specs.Option.{is_some};
    ghost use Rattle.mv_shards.specs.Parts.{eight};
    ghost use Rattle.mv_shards.specs.Histories.{tables_at};
    ghost use Rattle.mv_shards.specs.Kept.{IsLow};
    ghost use Rattle.mv_shards.specs.Reads.{MayRead, Sighted};
    ghost use Rattle.mv_shards.specs.Leaves.{IsLeave};

    ghost Value = { Sighted };

    ghost view = { λ v. record { sight = record { database = tables_at N.script v.pass.seen v.start; start = v.start; may_be_stale = is_some N.script.options.horizon; stale_answers = v.stale_answers; last_low = v.last_low; rows_calls = v.rows_calls; row_calls = v.row_calls }; seen = v.pass.seen } };

    ghost invariant = { λ v. MayRead N.script eight v.start v.pass × IsLow N.script.options.horizon v.last_low (length v.pass.seen) × IsLeave N.script N.word (P.shown v.leave) v.start };
}

impl<'a, N: Making + Naming, W, P: Leave<N, W>, R: Wait> ReaderView<'a, N, W, P, R> {
    /// Returns a view of the tables at a start, before any query, for a reader who shows this. It allocates no memory.
    pub fn at(
        rt: &'a R,
        shards: &'a Shards<N>,
        board: &'a Board<N>,
        word: &'a W,
        start: &mut Start<N>,
        leave: P,
    ) -> ReaderView<'a, N, W, P, R>
        requires { IsLeave N.script N.word (P.shown leave) start.old.number }
        ensures sight { result.sight ≡ sight_at N.script start.old.knows.seen start.old.number }
        ensures seen { result.seen ≡ start.old.knows.seen }
        ensures same { start.new ≡ start.old }
    {
        let pass = note(&mut start.pass, board);
        ReaderView {
            rt,
            shards,
            board,
            word,
            pass,
            leave,
            start: start.number,
            stale_answers: 0,
            last_low: 0,
            rows_calls: 0,
            row_calls: 0,
        }
    }

    /// Returns a view of the tables after this many commits of what the pass has seen, before any query. It allocates no
    /// memory.
    pub(crate) fn of(
        rt: &'a R,
        shards: &'a Shards<N>,
        board: &'a Board<N>,
        word: &'a W,
        pass: Pass<N>,
        leave: P,
        start: u32,
    ) -> ReaderView<'a, N, W, P, R>
        requires may { MayRead N.script eight start pass }
        requires leave { IsLeave N.script N.word (P.shown leave) start }
        ensures sight { result.sight ≡ sight_at N.script pass.seen start }
        ensures seen { result.seen ≡ pass.seen }
    {
        ReaderView {
            rt,
            shards,
            board,
            word,
            pass,
            leave,
            start,
            stale_answers: 0,
            last_low: 0,
            rows_calls: 0,
            row_calls: 0,
        }
    }

    /// Returns the view's pass, which has seen what the shards have shown, and what its reader showed. The low of the last
    /// `Stale` result lies below what the horizon keeps of the commits that the pass has seen.
    pub fn into_parts(self) -> (Pass<N>, P)
        ensures role { result.0.role ≡ Plain }
        ensures seen { result.0.seen ≡ self.entry.seen }
        ensures low { IsLow N.script.options.horizon self.entry.sight.last_low (length result.0.seen) }
        ensures leave { IsLeave N.script N.word (P.shown result.1) self.entry.sight.start }
    {
        let ReaderView { pass, leave, .. } = self;
        (pass, leave)
    }

    /// Returns the low of the last `Stale` result, or 0. It lies below what the horizon keeps of the commits that the
    /// view's pass has seen.
    pub fn last_low(&self) -> u32
        ensures low { result ≡ self.now.sight.last_low }
        ensures kept { IsLow N.script.options.horizon self.now.sight.last_low (length self.now.seen) }
    {
        let _pass = &self.pass;
        self.last_low
    }
}

/// A view for readers who need no pins.
pub type ShardsView<'a, N, R> = ReaderView<'a, N, (), (), R>;

impl<'a, N: Making + Naming, R: Wait> ReaderView<'a, N, (), (), R> {
    /// Returns a view of the tables at a start, before any query. Its readers must not need pins. It allocates no memory.
    pub fn new(
        rt: &'a R,
        shards: &'a Shards<N>,
        board: &'a Board<N>,
        start: &mut Start<N>,
    ) -> ReaderView<'a, N, (), (), R>
        requires { NeedPins N.script N.word → ⊥ }
        ensures sight { result.sight ≡ sight_at N.script start.old.knows.seen start.old.number }
        ensures seen { result.seen ≡ start.old.knows.seen }
        ensures same { start.new ≡ start.old }
    {
        ReaderView::at(rt, shards, board, &(), start, ())
    }
}

/// Counts an error that is `Stale`, and keeps its low.
fn count(answers: &mut u64, last_low: &mut u32, refused: Refused)
    ensures answers { answers.new ≡ answers_after answers.old refused }
    ensures low { last_low.new ≡ low_after last_low.old refused }
    ensures fits { answers.old < 2 ^ 64 }
{
    let was = *answers;
    if let Refused::Stale { low, .. } = refused {
        *answers = was.saturating_add(1);
        *last_low = low;
    }
}

impl<'a, N: Making + Naming, W, P: Leave<N, W>, R: Wait> View<'a> for ReaderView<'a, N, W, P, R> {
    ghost sight = { λ v. v.sight };

    fn rows(&mut self, alloc: Global, pred: &PredRef<'_>) -> Result<FoundRows<'a>, Refused> {
        self.rows_calls = self.rows_calls.saturating_add(1);
        match self.shards.rows_after(
            self.rt,
            alloc,
            self.board,
            self.word,
            &mut self.pass,
            &mut self.leave,
            self.start,
            pred,
        ) {
            Ok(rows) => Ok(rows),
            Err(refused) => {
                count(&mut self.stale_answers, &mut self.last_low, refused);
                Err(refused)
            }
        }
    }

    fn foremost<K: KeySet>(
        &mut self,
        alloc: Global,
        pred: &PredRef<'_>,
        direction: Direction,
        passed: &K,
    ) -> Result<Option<Found<'a>>, Refused> {
        self.rows_calls = self.rows_calls.saturating_add(1);
        match self.shards.foremost_after(
            self.rt,
            alloc,
            self.board,
            self.word,
            &mut self.pass,
            &mut self.leave,
            self.start,
            pred,
            direction,
            passed,
        ) {
            Ok(row) => Ok(row),
            Err(refused) => {
                count(&mut self.stale_answers, &mut self.last_low, refused);
                Err(refused)
            }
        }
    }

    fn match_under(
        &mut self,
        alloc: Global,
        pred: &PredRef<'_>,
        key: &Key,
    ) -> Result<Option<Lent<'a>>, Refused> {
        self.rows_calls = self.rows_calls.saturating_add(1);
        match self.shards.match_after(
            self.rt,
            alloc,
            self.board,
            self.word,
            &mut self.pass,
            &mut self.leave,
            self.start,
            pred,
            key,
        ) {
            Ok(row) => Ok(row),
            Err(refused) => {
                count(&mut self.stale_answers, &mut self.last_low, refused);
                Err(refused)
            }
        }
    }

    fn row(&mut self, alloc: Global, table: u8, key: &Key) -> Result<Option<Lent<'a>>, Refused> {
        self.row_calls = self.row_calls.saturating_add(1);
        match self.shards.row_after(
            self.rt,
            alloc,
            self.board,
            self.word,
            &mut self.pass,
            &mut self.leave,
            self.start,
            table,
            key,
        ) {
            Ok(row) => Ok(row),
            Err(refused) => {
                count(&mut self.stale_answers, &mut self.last_low, refused);
                Err(refused)
            }
        }
    }
}
