//! Shards behind their locks, one after another.

ghost use Rattle.std.specs.Prelude.{◌≡◌, ◌∷◌, ◌<◌, ◌≤◌, [], None, IfOk, IfErr, OnOk, OnErr, length, true, slice_index};
ghost use Rattle.std.specs.List.{list_any};
ghost use lib.Dec.{eqb};
ghost use Rattle.mv_values.specs.Patching.{found_by, row_of};
ghost use Rattle.mv_values.specs.Preds.{matched};
ghost use Rattle.mv_table.specs.Scans.{foremost};
ghost use Rattle.mv_view.specs.Narrowing.{outside};
ghost use Rattle.mv_shards.specs.Reads.{gathered};
ghost use Rattle.mv_values.specs.Tables.{rows_at};
ghost use Rattle.mv_record.specs.Admitting.{Admitted};
ghost use Rattle.mv_seats.specs.Knowing.{Plain, has_role, handing};
ghost use Rattle.mv_shards.specs.Parts.{part};
ghost use Rattle.mv_shards.specs.Histories.{tables_at, last_touch};
ghost use Rattle.mv_shards.specs.Kept.{MayMake, HasGrown};
ghost use Rattle.mv_shards.specs.Installing.{MayInstall, HasInstalled, HasNotInstalled};
ghost use Rattle.mv_shards.specs.Reads.{MayRead, IsRefusal};
ghost use Rattle.mv_shards.specs.Leaves.{IsLeave};

use crate::found::add_rows;
use crate::leave::Leave;
use crate::parts::writes_to;
use crate::shard_store::ShardStore;
use mv_grace::grace::{Grace, Naming};
use mv_grace::note::FloorNote;
use mv_seats::board::{Board, Making};
use mv_seats::pass::Pass;
use mv_table::scan::Direction;
use mv_table::table::Table;
use mv_values::list::List;
use mv_values::memory::NoMemory;
use mv_values::patch::Write;
use mv_values::pred_ref::PredRef;
use mv_values::rows::{Database, Keyed, Rows};
use mv_values::tested::Tested;
use mv_values::value::{Key, Row};
use mv_view::key_set::KeySet;
use mv_view::view::Refused;
use std::alloc::Global;
use std::sync::{Mutex, Wait};

/// Shards, each behind its own lock. They are locked in the order of their numbers.
pub(crate) trait ShardList<N: Making + Naming>: Drop {
    ghost use Rattle.std.specs.Prelude.{ℕ, List};

    /// The numbers of the shards.
    ghost numbers: { List ℕ };

    /// Puts the writes of a call into the shards that they are to, then appends the call as commit n, then makes the
    /// writes commit n. Returns n. The locks of the written shards are held together.
    fn install<R: Wait>(
        &self,
        rt: &R,
        alloc: Global,
        board: &Board<N>,
        pass: &mut Pass<N>,
        call: u32,
        writes: &[Write],
    ) -> Result<u32, NoMemory>
        requires { MayInstall N.script numbers call writes.now pass.old }
        ensures ok { IfOk result (λ n. HasInstalled numbers call writes.now n pass.old pass.new) }
        ensures err { OnErr result (HasNotInstalled pass.old pass.new) };

    /// Returns copies of the rows of one of the shards that the predicate matches after n commits of the history that
    /// the pass has seen.
    fn rows_of<R: Wait, W, P: Leave<N, W>>(
        &self,
        rt: &R,
        alloc: Global,
        board: &Board<N>,
        word: &W,
        pass: &mut Pass<N>,
        leave: &mut P,
        n: u32,
        shard: u32,
        pred: &PredRef<'_>,
    ) -> Result<Rows, Refused>
        requires may { MayRead N.script numbers n pass.old }
        requires admitted { Admitted pred.now (rows_at (tables_at N.script pass.old.seen n) pred.now.table) }
        requires leave { IsLeave N.script N.word (P.shown leave.old) n }
        ensures found { list_any (eqb shard) numbers ≡ true → IfOk result (λ rows. rows ≡ found_by pred.now (part shard (tables_at N.script pass.old.seen n))) }
        ensures refused { IfErr result (IsRefusal N.script n (length pass.new.seen)) }
        ensures grown { HasGrown pass.old pass.new }
        ensures shown { P.shown leave.new ≡ P.shown leave.old };

    /// Returns a copy of the row of one of the shards under a key after n commits of the history that the pass has seen.
    fn row_of<R: Wait, W, P: Leave<N, W>>(
        &self,
        rt: &R,
        alloc: Global,
        board: &Board<N>,
        word: &W,
        pass: &mut Pass<N>,
        leave: &mut P,
        n: u32,
        shard: u32,
        table: u8,
        key: &Key,
    ) -> Result<Option<Row>, Refused>
        requires may { MayRead N.script numbers n pass.old }
        requires leave { IsLeave N.script N.word (P.shown leave.old) n }
        ensures found { list_any (eqb shard) numbers ≡ true → IfOk result (λ row. row ≡ row_of (rows_at (part shard (tables_at N.script pass.old.seen n)) table) key.now) }
        ensures refused { IfErr result (IsRefusal N.script n (length pass.new.seen)) }
        ensures grown { HasGrown pass.old pass.new }
        ensures shown { P.shown leave.new ≡ P.shown leave.old };

    /// Returns a copy of the row of one of the shards under a key after n commits of the history that the pass has seen,
    /// if the predicate matches it.
    fn match_of<R: Wait, W, P: Leave<N, W>>(
        &self,
        rt: &R,
        alloc: Global,
        board: &Board<N>,
        word: &W,
        pass: &mut Pass<N>,
        leave: &mut P,
        n: u32,
        shard: u32,
        pred: &PredRef<'_>,
        key: &Key,
    ) -> Result<Option<Row>, Refused>
        requires may { MayRead N.script numbers n pass.old }
        requires leave { IsLeave N.script N.word (P.shown leave.old) n }
        ensures found { list_any (eqb shard) numbers ≡ true → IfOk result (λ row. row ≡ matched pred.now (row_of (rows_at (part shard (tables_at N.script pass.old.seen n)) pred.now.table) key.now)) }
        ensures refused { IfErr result (IsRefusal N.script n (length pass.new.seen)) }
        ensures grown { HasGrown pass.old pass.new }
        ensures shown { P.shown leave.new ≡ P.shown leave.old };

    /// Returns a copy of the first row in this direction of one of the shards that the predicate matches after n commits
    /// of the history that the pass has seen and whose key isn't in `passed`.
    fn foremost_of<R: Wait, K: KeySet, W, P: Leave<N, W>>(
        &self,
        rt: &R,
        alloc: Global,
        board: &Board<N>,
        word: &W,
        pass: &mut Pass<N>,
        leave: &mut P,
        n: u32,
        shard: u32,
        pred: &PredRef<'_>,
        direction: Direction,
        passed: &K,
    ) -> Result<Option<Keyed>, Refused>
        requires may { MayRead N.script numbers n pass.old }
        requires admitted { Admitted pred.now (rows_at (tables_at N.script pass.old.seen n) pred.now.table) }
        requires leave { IsLeave N.script N.word (P.shown leave.old) n }
        ensures found { list_any (eqb shard) numbers ≡ true → IfOk result (λ row. row ≡ foremost direction (outside (K.has passed.now) (found_by pred.now (part shard (tables_at N.script pass.old.seen n))))) }
        ensures refused { IfErr result (IsRefusal N.script n (length pass.new.seen)) }
        ensures grown { HasGrown pass.old pass.new }
        ensures shown { P.shown leave.new ≡ P.shown leave.old };

    /// Adds copies of the rows of each shard that the predicate matches after n commits of the history that the pass has
    /// seen. One lock is held at a time.
    fn gather<R: Wait, W, P: Leave<N, W>>(
        &self,
        rt: &R,
        alloc: Global,
        board: &Board<N>,
        word: &W,
        pass: &mut Pass<N>,
        leave: &mut P,
        n: u32,
        pred: &PredRef<'_>,
        found: &mut Table,
    ) -> Result<(), Refused>
        requires may { MayRead N.script numbers n pass.old }
        requires admitted { Admitted pred.now (rows_at (tables_at N.script pass.old.seen n) pred.now.table) }
        requires leave { IsLeave N.script N.word (P.shown leave.old) n }
        ensures found { OnOk result (found.new ≡ gathered numbers pred.now (tables_at N.script pass.old.seen n) found.old) }
        ensures refused { IfErr result (IsRefusal N.script n (length pass.new.seen)) }
        ensures grown { HasGrown pass.old pass.new }
        ensures shown { P.shown leave.new ≡ P.shown leave.old };

    /// Returns how many versions the shards keep beside the newest ones, or `u64::MAX` if there are more. One lock is held
    /// at a time.
    fn old_versions<R: Wait>(&self, rt: &R) -> u64;

    /// Drops the rows of each shard before commit `low`, or before the shard's last commit less the horizon if that is
    /// lower.
    fn collect<R: Wait>(&self, rt: &R, low: u32);

    /// Drops the rows of each shard before a note's floor, or before the shard's last commit if that is lower. No horizon
    /// may be given.
    fn collect_to<R: Wait>(&self, rt: &R, grace: &Grace<N>, note: &mut FloorNote<N>)
        requires { N.script.options.horizon ≡ None }
        ensures { note.new ≡ note.old };
}

/// No more shards.
#[derive(Drop)]
pub(crate) struct ListEnd;

/// Shard `Q`, and those after it.
#[derive(Drop)]
pub(crate) struct ShardNode<N: Making + Naming, const Q: u32, L: ShardList<N>> {
    pub(crate) store: Mutex<ShardStore<N, Q>>,
    pub(crate) rest: L,
}

/// Returns shard `Q` of a database before those after it, before any commit. The gate's pass hands its role out, unless
/// memory runs out.
pub(crate) fn make_node<N: Making + Naming, const Q: u32, L: ShardList<N>>(
    alloc: Global,
    opening: &Database,
    horizon: Option<u32>,
    board: &Board<N>,
    pass: &mut Pass<N>,
    columns: &List<Tested>,
    rest: L,
) -> Result<ShardNode<N, Q, L>, NoMemory>
    requires may { MayMake N.script opening.now horizon pass.old }
    requires there { Q < 8 }
    requires has { has_role pass.old Q ≡ true }
    ensures handed { OnOk result (pass.new ≡ handing pass.old Q) }
    ensures next { OnOk result (MayMake N.script opening.now horizon pass.new) }
{
    let store = ShardStore::<N, Q>::new(alloc, opening, horizon, board, pass, columns)?;
    Ok(ShardNode {
        store: Mutex::new(store),
        rest,
    })
}

/// Returns copies of a shard's rows that the predicate matches after n commits of the history that the pass has seen.
fn read_shard<N: Making + Naming, const Q: u32, R: Wait, W, P: Leave<N, W>>(
    store: &Mutex<ShardStore<N, Q>>,
    rt: &R,
    alloc: Global,
    board: &Board<N>,
    word: &W,
    pass: &mut Pass<N>,
    leave: &mut P,
    n: u32,
    pred: &PredRef<'_>,
) -> Result<Rows, Refused>
    requires role { pass.old.role ≡ Plain }
    requires past { n ≤ length pass.old.seen }
    requires known { last_touch N.script Q pass.old.seen n ≤ slice_index pass.old.marks Q }
    requires admitted { Admitted pred.now (rows_at (tables_at N.script pass.old.seen n) pred.now.table) }
    requires leave { IsLeave N.script N.word (P.shown leave.old) n }
    ensures found { IfOk result (λ rows. rows ≡ found_by pred.now (part Q (tables_at N.script pass.old.seen n))) }
    ensures refused { IfErr result (IsRefusal N.script n (length pass.new.seen)) }
    ensures grown { HasGrown pass.old pass.new }
    ensures shown { P.shown leave.new ≡ P.shown leave.old }
{
    let mut store = store.lock(rt);
    store.rows_at(alloc, board, word, pass, leave, n, pred)
}

impl<N: Making + Naming> ShardList<N> for ListEnd {
    ghost use Rattle.std.specs.Prelude.{[]};

    ghost numbers = { [] };

    fn install<R: Wait>(
        &self,
        _rt: &R,
        _alloc: Global,
        board: &Board<N>,
        pass: &mut Pass<N>,
        call: u32,
        _writes: &[Write],
    ) -> Result<u32, NoMemory> {
        pass.append(board, call);
        Ok(pass.count(board))
    }

    fn rows_of<R: Wait, W, P: Leave<N, W>>(
        &self,
        _rt: &R,
        alloc: Global,
        _board: &Board<N>,
        _word: &W,
        _pass: &mut Pass<N>,
        _leave: &mut P,
        _n: u32,
        _shard: u32,
        _pred: &PredRef<'_>,
    ) -> Result<Rows, Refused> {
        Ok(Rows::new(alloc))
    }

    fn row_of<R: Wait, W, P: Leave<N, W>>(
        &self,
        _rt: &R,
        _alloc: Global,
        _board: &Board<N>,
        _word: &W,
        _pass: &mut Pass<N>,
        _leave: &mut P,
        _n: u32,
        _shard: u32,
        _table: u8,
        _key: &Key,
    ) -> Result<Option<Row>, Refused> {
        Ok(None)
    }

    fn match_of<R: Wait, W, P: Leave<N, W>>(
        &self,
        _rt: &R,
        _alloc: Global,
        _board: &Board<N>,
        _word: &W,
        _pass: &mut Pass<N>,
        _leave: &mut P,
        _n: u32,
        _shard: u32,
        _pred: &PredRef<'_>,
        _key: &Key,
    ) -> Result<Option<Row>, Refused> {
        Ok(None)
    }

    fn foremost_of<R: Wait, K: KeySet, W, P: Leave<N, W>>(
        &self,
        _rt: &R,
        _alloc: Global,
        _board: &Board<N>,
        _word: &W,
        _pass: &mut Pass<N>,
        _leave: &mut P,
        _n: u32,
        _shard: u32,
        _pred: &PredRef<'_>,
        _direction: Direction,
        _passed: &K,
    ) -> Result<Option<Keyed>, Refused> {
        Ok(None)
    }

    fn gather<R: Wait, W, P: Leave<N, W>>(
        &self,
        _rt: &R,
        _alloc: Global,
        _board: &Board<N>,
        _word: &W,
        _pass: &mut Pass<N>,
        _leave: &mut P,
        _n: u32,
        _pred: &PredRef<'_>,
        _found: &mut Table,
    ) -> Result<(), Refused> {
        Ok(())
    }

    fn old_versions<R: Wait>(&self, _rt: &R) -> u64 {
        0
    }

    fn collect<R: Wait>(&self, _rt: &R, _low: u32) {}

    fn collect_to<R: Wait>(&self, _rt: &R, _grace: &Grace<N>, _note: &mut FloorNote<N>) {}
}

impl<N: Making + Naming, const Q: u32, L: ShardList<N>> ShardList<N> for ShardNode<N, Q, L> {
    ghost use Rattle.std.specs.Prelude.{◌∷◌};

    ghost numbers = { Q ∷ L.numbers };

    fn install<R: Wait>(
        &self,
        rt: &R,
        alloc: Global,
        board: &Board<N>,
        pass: &mut Pass<N>,
        call: u32,
        writes: &[Write],
    ) -> Result<u32, NoMemory> {
        if !writes_to(Q, writes) {
            return self.rest.install(rt, alloc, board, pass, call, writes);
        }
        let mut store = self.store.lock(rt);
        store.install(rt, alloc, board, pass, call, writes, &self.rest)
    }

    fn rows_of<R: Wait, W, P: Leave<N, W>>(
        &self,
        rt: &R,
        alloc: Global,
        board: &Board<N>,
        word: &W,
        pass: &mut Pass<N>,
        leave: &mut P,
        n: u32,
        shard: u32,
        pred: &PredRef<'_>,
    ) -> Result<Rows, Refused> {
        if shard != Q {
            return self
                .rest
                .rows_of(rt, alloc, board, word, pass, leave, n, shard, pred);
        }
        let mut store = self.store.lock(rt);
        store.rows_at(alloc, board, word, pass, leave, n, pred)
    }

    fn row_of<R: Wait, W, P: Leave<N, W>>(
        &self,
        rt: &R,
        alloc: Global,
        board: &Board<N>,
        word: &W,
        pass: &mut Pass<N>,
        leave: &mut P,
        n: u32,
        shard: u32,
        table: u8,
        key: &Key,
    ) -> Result<Option<Row>, Refused> {
        if shard != Q {
            return self
                .rest
                .row_of(rt, alloc, board, word, pass, leave, n, shard, table, key);
        }
        let mut store = self.store.lock(rt);
        store.row_at(alloc, board, word, pass, leave, n, table, key)
    }

    fn match_of<R: Wait, W, P: Leave<N, W>>(
        &self,
        rt: &R,
        alloc: Global,
        board: &Board<N>,
        word: &W,
        pass: &mut Pass<N>,
        leave: &mut P,
        n: u32,
        shard: u32,
        pred: &PredRef<'_>,
        key: &Key,
    ) -> Result<Option<Row>, Refused> {
        if shard != Q {
            return self
                .rest
                .match_of(rt, alloc, board, word, pass, leave, n, shard, pred, key);
        }
        let mut store = self.store.lock(rt);
        store.match_at(alloc, board, word, pass, leave, n, pred, key)
    }

    fn foremost_of<R: Wait, K: KeySet, W, P: Leave<N, W>>(
        &self,
        rt: &R,
        alloc: Global,
        board: &Board<N>,
        word: &W,
        pass: &mut Pass<N>,
        leave: &mut P,
        n: u32,
        shard: u32,
        pred: &PredRef<'_>,
        direction: Direction,
        passed: &K,
    ) -> Result<Option<Keyed>, Refused> {
        if shard != Q {
            return self.rest.foremost_of(
                rt, alloc, board, word, pass, leave, n, shard, pred, direction, passed,
            );
        }
        let mut store = self.store.lock(rt);
        store.foremost_at(alloc, board, word, pass, leave, n, pred, direction, passed)
    }

    fn gather<R: Wait, W, P: Leave<N, W>>(
        &self,
        rt: &R,
        alloc: Global,
        board: &Board<N>,
        word: &W,
        pass: &mut Pass<N>,
        leave: &mut P,
        n: u32,
        pred: &PredRef<'_>,
        found: &mut Table,
    ) -> Result<(), Refused> {
        let rows = read_shard(&self.store, rt, alloc, board, word, pass, leave, n, pred)?;
        add_rows(found, rows)?;
        self.rest
            .gather(rt, alloc, board, word, pass, leave, n, pred, found)
    }

    fn old_versions<R: Wait>(&self, rt: &R) -> u64 {
        let count = self.store.lock(rt).old_versions();
        count.saturating_add(self.rest.old_versions(rt))
    }

    fn collect<R: Wait>(&self, rt: &R, low: u32) {
        self.store.lock(rt).collect(low);
        self.rest.collect(rt, low);
    }

    fn collect_to<R: Wait>(&self, rt: &R, grace: &Grace<N>, note: &mut FloorNote<N>) {
        self.store.lock(rt).collect_to(grace, note);
        self.rest.collect_to(rt, grace, note);
    }
}
