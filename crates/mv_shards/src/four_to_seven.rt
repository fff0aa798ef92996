//! Shards 4 to 7, as one type.

ghost use Rattle.std.specs.Prelude.{◌≡◌, ◌∷◌, [], OnOk};
ghost use Rattle.mv_shards.specs.Kept.{MayMake};

use crate::leave::Leave;
use crate::shard_list::{ListEnd, ShardList, ShardNode, make_node};
use mv_grace::grace::{Grace, Naming};
use mv_grace::note::FloorNote;
use mv_seats::board::{Board, Making};
use mv_seats::pass::Pass;
use mv_table::scan::Direction;
use mv_table::table::Table;
use mv_values::list::List;
use mv_values::memory::NoMemory;
use mv_values::patch::Write;
use mv_values::pred_ref::PredRef;
use mv_values::rows::{Database, Keyed, Rows};
use mv_values::tested::Tested;
use mv_values::value::{Key, Row};
use mv_view::key_set::KeySet;
use mv_view::view::Refused;
use std::alloc::Global;
use std::sync::Wait;

/// Shards 4 to 7.
#[derive(Drop)]
pub(crate) struct FourToSeven<N: Making + Naming> {
    list: ShardNode<N, 4, ShardNode<N, 5, ShardNode<N, 6, ShardNode<N, 7, ListEnd>>>>,
}

impl<N: Making + Naming> FourToSeven<N> {
    /// Returns shards 4 to 7 of a database, before any commit. The gate's pass hands their roles out, or fewer if memory
    /// runs out.
    pub(crate) fn new(
        alloc: Global,
        opening: &Database,
        horizon: Option<u32>,
        board: &Board<N>,
        pass: &mut Pass<N>,
        columns: &List<Tested>,
    ) -> Result<FourToSeven<N>, NoMemory>
        requires may { MayMake N.script opening.now horizon pass.old }
        requires none { pass.old.handed ≡ [] }
        ensures handed { OnOk result (pass.new.handed ≡ 4 ∷ 5 ∷ 6 ∷ 7 ∷ []) }
        ensures next { OnOk result (MayMake N.script opening.now horizon pass.new) }
    {
        let seventh = make_node::<N, 7, ListEnd>(
            alloc, opening, horizon, board, pass, columns, ListEnd,
        )?;
        let sixth = make_node::<N, 6, ShardNode<N, 7, ListEnd>>(
            alloc, opening, horizon, board, pass, columns, seventh,
        )?;
        let fifth = make_node::<N, 5, ShardNode<N, 6, ShardNode<N, 7, ListEnd>>>(
            alloc, opening, horizon, board, pass, columns, sixth,
        )?;
        let list = make_node::<N, 4, ShardNode<N, 5, ShardNode<N, 6, ShardNode<N, 7, ListEnd>>>>(
            alloc, opening, horizon, board, pass, columns, fifth,
        )?;
        Ok(FourToSeven { list })
    }
}

impl<N: Making + Naming> ShardList<N> for FourToSeven<N> {
    ghost use Rattle.std.specs.Prelude.{◌∷◌, []};

    ghost numbers = { 4 ∷ 5 ∷ 6 ∷ 7 ∷ [] };

    fn install<R: Wait>(
        &self,
        rt: &R,
        alloc: Global,
        board: &Board<N>,
        pass: &mut Pass<N>,
        call: u32,
        writes: &[Write],
    ) -> Result<u32, NoMemory> {
        self.list.install(rt, alloc, board, pass, call, writes)
    }

    fn rows_of<R: Wait, W, P: Leave<N, W>>(
        &self,
        rt: &R,
        alloc: Global,
        board: &Board<N>,
        word: &W,
        pass: &mut Pass<N>,
        leave: &mut P,
        n: u32,
        shard: u32,
        pred: &PredRef<'_>,
    ) -> Result<Rows, Refused> {
        self.list
            .rows_of(rt, alloc, board, word, pass, leave, n, shard, pred)
    }

    fn row_of<R: Wait, W, P: Leave<N, W>>(
        &self,
        rt: &R,
        alloc: Global,
        board: &Board<N>,
        word: &W,
        pass: &mut Pass<N>,
        leave: &mut P,
        n: u32,
        shard: u32,
        table: u8,
        key: &Key,
    ) -> Result<Option<Row>, Refused> {
        self.list
            .row_of(rt, alloc, board, word, pass, leave, n, shard, table, key)
    }

    fn match_of<R: Wait, W, P: Leave<N, W>>(
        &self,
        rt: &R,
        alloc: Global,
        board: &Board<N>,
        word: &W,
        pass: &mut Pass<N>,
        leave: &mut P,
        n: u32,
        shard: u32,
        pred: &PredRef<'_>,
        key: &Key,
    ) -> Result<Option<Row>, Refused> {
        self.list
            .match_of(rt, alloc, board, word, pass, leave, n, shard, pred, key)
    }

    fn foremost_of<R: Wait, K: KeySet, W, P: Leave<N, W>>(
        &self,
        rt: &R,
        alloc: Global,
        board: &Board<N>,
        word: &W,
        pass: &mut Pass<N>,
        leave: &mut P,
        n: u32,
        shard: u32,
        pred: &PredRef<'_>,
        direction: Direction,
        passed: &K,
    ) -> Result<Option<Keyed>, Refused> {
        self.list.foremost_of(
            rt, alloc, board, word, pass, leave, n, shard, pred, direction, passed,
        )
    }

    fn gather<R: Wait, W, P: Leave<N, W>>(
        &self,
        rt: &R,
        alloc: Global,
        board: &Board<N>,
        word: &W,
        pass: &mut Pass<N>,
        leave: &mut P,
        n: u32,
        pred: &PredRef<'_>,
        found: &mut Table,
    ) -> Result<(), Refused> {
        self.list
            .gather(rt, alloc, board, word, pass, leave, n, pred, found)
    }

    fn old_versions<R: Wait>(&self, rt: &R) -> u64 {
        self.list.old_versions(rt)
    }

    fn collect<R: Wait>(&self, rt: &R, low: u32) {
        self.list.collect(rt, low);
    }

    fn collect_to<R: Wait>(&self, rt: &R, grace: &Grace<N>, note: &mut FloorNote<N>) {
        self.list.collect_to(rt, grace, note);
    }
}
