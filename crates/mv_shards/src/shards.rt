//! The rows of a database in eight shards.

ghost use Rattle.std.specs.Prelude.{◌≡◌, ◌<◌, [], None, IfOk, IfErr, OnOk, OnErr, length};
ghost use mathlib.Core.List.{IsPrefix};
ghost use Rattle.mv_values.specs.Patching.{found_by, row_of};
ghost use Rattle.mv_values.specs.Preds.{matched};
ghost use Rattle.mv_values.specs.Tables.{rows_at};
ghost use Rattle.mv_record.specs.Admitting.{Admitted};
ghost use Rattle.mv_seats.specs.Knowing.{gate_pass, Gate};
ghost use Rattle.mv_table.specs.Scans.{foremost};
ghost use Rattle.mv_view.specs.Narrowing.{outside};
ghost use Rattle.mv_script.specs.Scripts.{IsCompiledScript};
ghost use Rattle.mv_shards.specs.Scripts.{script_in};
ghost use Rattle.mv_shards.specs.Parts.{eight};
ghost use Rattle.mv_shards.specs.Histories.{tables_at};
ghost use Rattle.mv_shards.specs.Kept.{HasGrown};
ghost use Rattle.mv_shards.specs.Installing.{MayInstall, HasInstalled, HasNotInstalled};
ghost use Rattle.mv_shards.specs.Reads.{IsRefusal, MayRead};
ghost use Rattle.mv_shards.specs.Leaves.{NeedPins, IsLeave};

use crate::leave::Leave;
use crate::reads::{foremost_over, match_over, row_over, rows_from, rows_over};
use crate::shard_list::{ShardList, ShardNode, make_node};
use crate::start::Start;
use crate::two_to_seven::TwoToSeven;
use mv_grace::grace::{Grace, Naming};
use mv_grace::note::FloorNote;
use mv_seats::board::{Board, Making};
use mv_seats::pass::Pass;
use mv_table::found::{self, Found};
use mv_table::found_rows::FoundRows;
use mv_table::scan::Direction;
use mv_values::lent::{self, Lent};
use mv_values::list::List;
use mv_values::memory::NoMemory;
use mv_values::patch::Write;
use mv_values::pred_ref::PredRef;
use mv_values::rows::{Database, Rows};
use mv_values::tested::Tested;
use mv_values::value::Key;
use mv_view::key_set::KeySet;
use mv_view::view::Refused;
use std::alloc::Global;
use std::sync::Wait;

/// The rows of a database, each in one of eight shards. Each shard is behind its own lock.
#[derive(Drop)]
pub struct Shards<N: Making + Naming> {
    list: ShardNode<N, 0, ShardNode<N, 1, TwoToSeven<N>>>,
}

impl<N: Making + Naming> Shards<N> {
    /// Returns the shards of the script's database, before any commit. The script must be of one piece and have eight
    /// shards. The pass must be the gate's as `Blank::open` gives it, and then has no shard's role. If memory runs out, it
    /// may have fewer roles. It copies the database twice.
    pub fn new(
        alloc: Global,
        opening: &Database,
        horizon: Option<u32>,
        board: &Board<N>,
        pass: &mut Pass<N>,
        columns: &List<Tested>,
    ) -> Result<Shards<N>, NoMemory>
        requires script { IsCompiledScript (script_in N.script) }
        requires shards { N.script.shards ≡ 8 }
        requires opening { opening.now ≡ N.script.opening }
        requires horizon { horizon ≡ N.script.options.horizon }
        requires pass { pass.old ≡ gate_pass }
        ensures role { OnOk result (pass.new.role ≡ Gate) }
        ensures seen { OnOk result (pass.new.seen ≡ []) }
        ensures marks { OnOk result (pass.new.marks ≡ []) }
    {
        let rest = TwoToSeven::<N>::new(alloc, opening, horizon, board, pass, columns)?;
        let first = make_node::<N, 1, TwoToSeven<N>>(
            alloc, opening, horizon, board, pass, columns, rest,
        )?;
        let list = make_node::<N, 0, ShardNode<N, 1, TwoToSeven<N>>>(
            alloc, opening, horizon, board, pass, columns, first,
        )?;
        Ok(Shards { list })
    }

    /// Appends a call as commit n with these writes, and returns n. It holds the locks of the written shards together.
    pub fn install<R: Wait>(
        &self,
        rt: &R,
        alloc: Global,
        board: &Board<N>,
        pass: &mut Pass<N>,
        call: u32,
        writes: &List<Write>,
    ) -> Result<u32, NoMemory>
        requires { MayInstall N.script eight call writes.now pass.old }
        ensures ok { IfOk result (λ n. HasInstalled eight call writes.now n pass.old pass.new) }
        ensures err { OnErr result (HasNotInstalled pass.old pass.new) }
    {
        self.list
            .install(rt, alloc, board, pass, call, writes.as_slice())
    }

    /// Returns copies of the rows that the predicate matches at a start, in key order. It looks at one shard if the
    /// predicate fixes it, and else at one after another. Its readers must not need pins.
    pub fn rows_at<R: Wait>(
        &self,
        rt: &R,
        alloc: Global,
        board: &Board<N>,
        start: &mut Start<N>,
        pred: &PredRef<'_>,
    ) -> Result<Rows, Refused>
        requires admitted { Admitted pred.now (rows_at (tables_at N.script start.old.knows.seen start.old.number) pred.now.table) }
        requires free { NeedPins N.script N.word → ⊥ }
        ensures found { IfOk result (λ rows. rows ≡ found_by pred.now (tables_at N.script start.old.knows.seen start.old.number)) }
        ensures refused { IfErr result (IsRefusal N.script start.old.number (length start.new.knows.seen)) }
        ensures seen { IsPrefix start.old.knows.seen start.new.knows.seen }
        ensures number { start.new.number ≡ start.old.number }
        ensures touched { start.new.touched ≡ start.old.touched }
    {
        rows_from(&self.list, rt, alloc, board, &(), start, &mut (), pred)
    }

    /// Returns copies of the rows that the predicate matches at a start, in key order, to a reader who shows this.
    pub(crate) fn rows_for<R: Wait, W, P: Leave<N, W>>(
        &self,
        rt: &R,
        alloc: Global,
        board: &Board<N>,
        word: &W,
        start: &mut Start<N>,
        leave: &mut P,
        pred: &PredRef<'_>,
    ) -> Result<Rows, Refused>
        requires admitted { Admitted pred.now (rows_at (tables_at N.script start.old.knows.seen start.old.number) pred.now.table) }
        requires leave { IsLeave N.script N.word (P.shown leave.old) start.old.number }
        ensures found { IfOk result (λ rows. rows ≡ found_by pred.now (tables_at N.script start.old.knows.seen start.old.number)) }
        ensures refused { IfErr result (IsRefusal N.script start.old.number (length start.new.knows.seen)) }
        ensures seen { IsPrefix start.old.knows.seen start.new.knows.seen }
        ensures number { start.new.number ≡ start.old.number }
        ensures touched { start.new.touched ≡ start.old.touched }
        ensures shown { P.shown leave.new ≡ P.shown leave.old }
    {
        rows_from(&self.list, rt, alloc, board, word, start, leave, pred)
    }

    /// Returns copies of the rows that the predicate matches after n commits of what the pass has seen.
    pub(crate) fn rows_after<'s, R: Wait, W, P: Leave<N, W>>(
        &self,
        rt: &R,
        alloc: Global,
        board: &Board<N>,
        word: &W,
        pass: &mut Pass<N>,
        leave: &mut P,
        n: u32,
        pred: &PredRef<'_>,
    ) -> Result<FoundRows<'s>, Refused>
        requires may { MayRead N.script eight n pass.old }
        requires admitted { Admitted pred.now (rows_at (tables_at N.script pass.old.seen n) pred.now.table) }
        requires leave { IsLeave N.script N.word (P.shown leave.old) n }
        ensures found { IfOk result (λ rows. rows ≡ found_by pred.now (tables_at N.script pass.old.seen n)) }
        ensures refused { IfErr result (IsRefusal N.script n (length pass.new.seen)) }
        ensures grown { HasGrown pass.old pass.new }
        ensures shown { P.shown leave.new ≡ P.shown leave.old }
    {
        let rows = rows_over(&self.list, rt, alloc, board, word, pass, leave, n, pred)?;
        let rows = FoundRows::made(alloc, rows)?;
        Ok(rows)
    }

    /// Returns a copy of the first row in this direction that the predicate matches after n commits of what the pass has
    /// seen and whose key isn't in `passed`.
    pub(crate) fn foremost_after<'s, R: Wait, K: KeySet, W, P: Leave<N, W>>(
        &self,
        rt: &R,
        alloc: Global,
        board: &Board<N>,
        word: &W,
        pass: &mut Pass<N>,
        leave: &mut P,
        n: u32,
        pred: &PredRef<'_>,
        direction: Direction,
        passed: &K,
    ) -> Result<Option<Found<'s>>, Refused>
        requires may { MayRead N.script eight n pass.old }
        requires admitted { Admitted pred.now (rows_at (tables_at N.script pass.old.seen n) pred.now.table) }
        requires leave { IsLeave N.script N.word (P.shown leave.old) n }
        ensures found { IfOk result (λ row. row ≡ foremost direction (outside (K.has passed.now) (found_by pred.now (tables_at N.script pass.old.seen n)))) }
        ensures refused { IfErr result (IsRefusal N.script n (length pass.new.seen)) }
        ensures grown { HasGrown pass.old pass.new }
        ensures shown { P.shown leave.new ≡ P.shown leave.old }
    {
        let row = foremost_over(
            &self.list, rt, alloc, board, word, pass, leave, n, pred, direction, passed,
        )?;
        Ok(found::made(row))
    }

    /// Returns a copy of the row under a key after n commits of what the pass has seen.
    pub(crate) fn row_after<'s, R: Wait, W, P: Leave<N, W>>(
        &self,
        rt: &R,
        alloc: Global,
        board: &Board<N>,
        word: &W,
        pass: &mut Pass<N>,
        leave: &mut P,
        n: u32,
        table: u8,
        key: &Key,
    ) -> Result<Option<Lent<'s>>, Refused>
        requires may { MayRead N.script eight n pass.old }
        requires leave { IsLeave N.script N.word (P.shown leave.old) n }
        ensures found { IfOk result (λ row. row ≡ row_of (rows_at (tables_at N.script pass.old.seen n) table) key.now) }
        ensures refused { IfErr result (IsRefusal N.script n (length pass.new.seen)) }
        ensures grown { HasGrown pass.old pass.new }
        ensures shown { P.shown leave.new ≡ P.shown leave.old }
    {
        let row = row_over(
            &self.list, rt, alloc, board, word, pass, leave, n, table, key,
        )?;
        Ok(lent::made(row))
    }

    /// Returns a copy of the row under a key after n commits of what the pass has seen, if the predicate matches it.
    pub(crate) fn match_after<'s, R: Wait, W, P: Leave<N, W>>(
        &self,
        rt: &R,
        alloc: Global,
        board: &Board<N>,
        word: &W,
        pass: &mut Pass<N>,
        leave: &mut P,
        n: u32,
        pred: &PredRef<'_>,
        key: &Key,
    ) -> Result<Option<Lent<'s>>, Refused>
        requires may { MayRead N.script eight n pass.old }
        requires leave { IsLeave N.script N.word (P.shown leave.old) n }
        ensures found { IfOk result (λ row. row ≡ matched pred.now (row_of (rows_at (tables_at N.script pass.old.seen n) pred.now.table) key.now)) }
        ensures refused { IfErr result (IsRefusal N.script n (length pass.new.seen)) }
        ensures grown { HasGrown pass.old pass.new }
        ensures shown { P.shown leave.new ≡ P.shown leave.old }
    {
        let row = match_over(
            &self.list, rt, alloc, board, word, pass, leave, n, pred, key,
        )?;
        Ok(lent::made(row))
    }

    /// Returns how many versions the shards keep beside the newest ones, or `u64::MAX` if there are more: for each row one
    /// for each commit that has changed it since the last collection. One lock is held at a time. Takes time linear in the
    /// number of keys.
    pub fn old_versions<R: Wait>(&self, rt: &R) -> u64 {
        self.list.old_versions(rt)
    }

    /// Drops the rows of each shard before commit `low`, or before the shard's last commit less the horizon if that is
    /// lower. Without a horizon it does nothing.
    pub fn collect<R: Wait>(&self, rt: &R, low: u32) {
        self.list.collect(rt, low);
    }

    /// Drops the rows of each shard before a note's floor, or before the shard's last commit if that is lower. No horizon
    /// may be given.
    pub fn collect_to<R: Wait>(&self, rt: &R, grace: &Grace<N>, note: &mut FloorNote<N>)
        requires { N.script.options.horizon ≡ None }
        ensures { note.new ≡ note.old }
    {
        self.list.collect_to(rt, grace, note);
    }
}
