//! What lies behind the lock of a shard.

ghost use Rattle.std.specs.Prelude.{◌≡◌, ◌⊎◌, ◌<◌, ◌≤◌, ◌^◌, ◌-◌, ◌∷◌, None, IfOk, IfErr, IfSome, OnOk, OnErr, true, min, max, length, slice_index};
ghost use mathlib.Core.List.{IsPrefix};
ghost use Rattle.mv_values.specs.Patching.{found_by, row_of};
ghost use Rattle.mv_values.specs.Preds.{matched};
ghost use Rattle.mv_table.specs.Scans.{foremost};
ghost use Rattle.mv_view.specs.Narrowing.{outside};
ghost use Rattle.mv_values.specs.Tables.{rows_at};
ghost use Rattle.mv_record.specs.Admitting.{Admitted};
ghost use Rattle.mv_store.specs.Stored.{database_at, old_versions};
ghost use Rattle.mv_seats.specs.Knowing.{Plain, Gate, Shard, has_role, handing};
ghost use Rattle.mv_shards.specs.Parts.{part, writes_to};
ghost use Rattle.mv_shards.specs.Histories.{tables_at, last_touch};
ghost use Rattle.mv_shards.specs.Kept.{MayMake, HasGrown};
ghost use Rattle.mv_shards.specs.Installing.{MayInstall, HasInstalled, HasNotInstalled};
ghost use Rattle.mv_shards.specs.Reads.{IsRefusal};
ghost use Rattle.mv_shards.specs.Leaves.{IsLeave};

use crate::copies::{copied_foremost, copied_match, copied_row, copied_rows};
use crate::leave::{Leave, copy_of};
use crate::notes::note;
use crate::opening::part_of;
use crate::parts::put_in;
use crate::shard_list::ShardList;
use mv_grace::grace::{Grace, Naming};
use mv_grace::note::FloorNote;
use mv_seats::board::{Board, Making};
use mv_seats::pass::Pass;
use mv_store::store::Store;
use mv_table::scan::Direction;
use mv_values::list::List;
use mv_values::memory::NoMemory;
use mv_values::patch::Write;
use mv_values::pred_ref::PredRef;
use mv_values::rows::{Database, Keyed, Rows};
use mv_values::tested::Tested;
use mv_values::value::{Key, Row};
use mv_view::key_set::KeySet;
use mv_view::view::Refused;
use std::alloc::Global;
use std::marker::Model;
use std::sync::Wait;

/// The rows of shard `Q` after each commit up to its mark, and the shard's pass. A shard that was collected up to a floor
/// has a note of it.
#[derive(Drop)]
pub(crate) struct ShardStore<N: Making + Naming, const Q: u32> {
    store: Store,
    pass: Pass<N>,
    horizon: Option<u32>,
    note: Option<FloorNote<N>>,
}

impl<N: Making + Naming, const Q: u32> Model for ShardStore<N, Q> {
    ghost use Rattle.std.specs.Prelude.{◌≡◌};
    ghost use Rattle.mv_shards.specs.Kept.{StoredShard, IsShardStore};

    ghost Value = { StoredShard };

    ghost view = { λ s. record { store = s.store; knows = s.pass } };

    ghost invariant = { λ s. IsShardStore N.script N.word Q s.store s.note s.pass × (s.horizon ≡ N.script.options.horizon) };
}

/// A shard's pass learns that all commits were made that the other pass has seen, and raises the shard's mark to n. The
/// other pass learns the mark.
fn raise_mark<N: Making>(
    own: &mut Pass<N>,
    board: &Board<N>,
    pass: &mut Pass<N>,
    shard: u32,
    n: u32,
)
    requires own { own.old.role ≡ Shard shard }
    requires there { shard < N.script.shards }
    requires gate { pass.old.role ≡ Gate }
    requires rises { slice_index own.old.marks shard ≤ n }
    requires seen { n ≤ length pass.old.seen }
    requires more { length own.old.seen < length pass.old.seen }
    ensures role { own.new.role ≡ Shard shard }
    ensures seen { own.new.seen ≡ pass.old.seen }
    ensures mark { slice_index own.new.marks shard ≡ n }
    ensures grown { HasGrown pass.old pass.new }
    ensures same { pass.new.seen ≡ pass.old.seen }
    ensures known { n ≤ slice_index pass.new.marks shard }
{
    let theirs = note(pass, board);
    own.meet(board, theirs);
    own.installed(board, shard);
    own.install(board, shard, n);
    let mine = note(own, board);
    pass.meet(board, mine);
}

/// If there is a note and a pin, the note's floor is at most the pin's start.
fn take_note<N: Naming, W, P: Leave<N, W>>(note: &mut Option<FloorNote<N>>, word: &W, leave: &mut P)
    ensures same { note.new ≡ note.old }
    ensures shown { P.shown leave.new ≡ P.shown leave.old }
    ensures below { IfSome note.old (λ floor. IfSome (P.shown leave.old) (λ start. floor ≤ start)) }
{
    if let Some(note) = note {
        leave.take_in(word, note);
    }
}

impl<N: Making + Naming, const Q: u32> ShardStore<N, Q> {
    /// Returns shard `Q` of a database, before any commit. The gate's pass hands its role out, unless memory runs out.
    pub(crate) fn new(
        alloc: Global,
        opening: &Database,
        horizon: Option<u32>,
        board: &Board<N>,
        pass: &mut Pass<N>,
        columns: &List<Tested>,
    ) -> Result<ShardStore<N, Q>, NoMemory>
        requires may { MayMake N.script opening.now horizon pass.old }
        requires there { Q < 8 }
        requires has { has_role pass.old Q ≡ true }
        ensures handed { OnOk result (pass.new ≡ handing pass.old Q) }
        ensures next { OnOk result (MayMake N.script opening.now horizon pass.new) }
    {
        let part = part_of(alloc, Q, opening)?;
        let store = Store::new(alloc, &part, columns)?;
        let pass = pass.hand(board, Q);
        Ok(ShardStore {
            store,
            pass,
            horizon,
            note: None,
        })
    }

    /// Shard and pass learn what the other has seen, and the pass learns the shard's mark.
    fn exchange(&mut self, board: &Board<N>, pass: &mut Pass<N>)
        requires { (pass.old.role ≡ Plain) ⊎ (pass.old.role ≡ Gate) }
        ensures same { self.new.store ≡ self.old.store }
        ensures here { IsPrefix self.old.knows.seen self.new.knows.seen }
        ensures there { IsPrefix pass.old.seen self.new.knows.seen }
        ensures back { IsPrefix self.new.knows.seen pass.new.seen }
        ensures mark { slice_index pass.old.marks Q ≤ self.new.store.last }
        ensures known { self.new.store.last ≤ slice_index pass.new.marks Q }
        ensures grown { HasGrown pass.old pass.new }
        ensures gate { pass.old.role ≡ Gate → pass.new.seen ≡ pass.old.seen }
    {
        let theirs = note(pass, board);
        self.pass.meet(board, theirs);
        self.pass.installed(board, Q);
        let mine = note(&mut self.pass, board);
        pass.meet(board, mine);
    }

    /// Shard and pass learn what the other has seen, so the shard's rows after n commits are those of the history that the
    /// pass has seen. The reader's pin learns how far the shard was collected. Fails with `Stale` if the rows may be gone.
    fn check_fresh<W, P: Leave<N, W>>(
        &mut self,
        board: &Board<N>,
        word: &W,
        pass: &mut Pass<N>,
        leave: &mut P,
        n: u32,
    ) -> Result<(), Refused>
        requires role { pass.old.role ≡ Plain }
        requires past { n ≤ length pass.old.seen }
        requires known { last_touch N.script Q pass.old.seen n ≤ slice_index pass.old.marks Q }
        requires leave { IsLeave N.script N.word (P.shown leave.old) n }
        ensures rows { OnOk result (database_at self.new.store n ≡ part Q (tables_at N.script pass.old.seen n)) }
        ensures fresh { OnOk result (self.new.store.low ≤ n) }
        ensures refused { IfErr result (IsRefusal N.script n (length pass.new.seen)) }
        ensures grown { HasGrown pass.old pass.new }
        ensures shown { P.shown leave.new ≡ P.shown leave.old }
    {
        self.exchange(board, pass);
        take_note(&mut self.note, word, leave);
        let low = self.store.low();
        if n < low {
            return Err(Refused::Stale { start: n, low });
        }
        Ok(())
    }

    /// Returns copies of the shard's rows that the predicate matches after n commits of the history that the pass has
    /// seen.
    pub(crate) fn rows_at<W, P: Leave<N, W>>(
        &mut self,
        alloc: Global,
        board: &Board<N>,
        word: &W,
        pass: &mut Pass<N>,
        leave: &mut P,
        n: u32,
        pred: &PredRef<'_>,
    ) -> Result<Rows, Refused>
        requires role { pass.old.role ≡ Plain }
        requires past { n ≤ length pass.old.seen }
        requires known { last_touch N.script Q pass.old.seen n ≤ slice_index pass.old.marks Q }
        requires admitted { Admitted pred.now (rows_at (tables_at N.script pass.old.seen n) pred.now.table) }
        requires leave { IsLeave N.script N.word (P.shown leave.old) n }
        ensures found { IfOk result (λ rows. rows ≡ found_by pred.now (part Q (tables_at N.script pass.old.seen n))) }
        ensures refused { IfErr result (IsRefusal N.script n (length pass.new.seen)) }
        ensures grown { HasGrown pass.old pass.new }
        ensures shown { P.shown leave.new ≡ P.shown leave.old }
    {
        self.check_fresh(board, word, pass, leave, n)?;
        copied_rows(alloc, &self.store, n, pred)
    }

    /// Returns a copy of the shard's row under a key after n commits of the history that the pass has seen.
    pub(crate) fn row_at<W, P: Leave<N, W>>(
        &mut self,
        alloc: Global,
        board: &Board<N>,
        word: &W,
        pass: &mut Pass<N>,
        leave: &mut P,
        n: u32,
        table: u8,
        key: &Key,
    ) -> Result<Option<Row>, Refused>
        requires role { pass.old.role ≡ Plain }
        requires past { n ≤ length pass.old.seen }
        requires known { last_touch N.script Q pass.old.seen n ≤ slice_index pass.old.marks Q }
        requires leave { IsLeave N.script N.word (P.shown leave.old) n }
        ensures found { IfOk result (λ row. row ≡ row_of (rows_at (part Q (tables_at N.script pass.old.seen n)) table) key.now) }
        ensures refused { IfErr result (IsRefusal N.script n (length pass.new.seen)) }
        ensures grown { HasGrown pass.old pass.new }
        ensures shown { P.shown leave.new ≡ P.shown leave.old }
    {
        self.check_fresh(board, word, pass, leave, n)?;
        copied_row(alloc, &self.store, n, table, key)
    }

    /// Returns a copy of the shard's row under a key after n commits of the history that the pass has seen, if the
    /// predicate matches it.
    pub(crate) fn match_at<W, P: Leave<N, W>>(
        &mut self,
        alloc: Global,
        board: &Board<N>,
        word: &W,
        pass: &mut Pass<N>,
        leave: &mut P,
        n: u32,
        pred: &PredRef<'_>,
        key: &Key,
    ) -> Result<Option<Row>, Refused>
        requires role { pass.old.role ≡ Plain }
        requires past { n ≤ length pass.old.seen }
        requires known { last_touch N.script Q pass.old.seen n ≤ slice_index pass.old.marks Q }
        requires leave { IsLeave N.script N.word (P.shown leave.old) n }
        ensures found { IfOk result (λ row. row ≡ matched pred.now (row_of (rows_at (part Q (tables_at N.script pass.old.seen n)) pred.now.table) key.now)) }
        ensures refused { IfErr result (IsRefusal N.script n (length pass.new.seen)) }
        ensures grown { HasGrown pass.old pass.new }
        ensures shown { P.shown leave.new ≡ P.shown leave.old }
    {
        self.check_fresh(board, word, pass, leave, n)?;
        copied_match(alloc, &self.store, n, pred, key)
    }

    /// Returns a copy of the shard's first row in this direction that the predicate matches after n commits of the history
    /// that the pass has seen and whose key isn't in `passed`.
    pub(crate) fn foremost_at<K: KeySet, W, P: Leave<N, W>>(
        &mut self,
        alloc: Global,
        board: &Board<N>,
        word: &W,
        pass: &mut Pass<N>,
        leave: &mut P,
        n: u32,
        pred: &PredRef<'_>,
        direction: Direction,
        passed: &K,
    ) -> Result<Option<Keyed>, Refused>
        requires role { pass.old.role ≡ Plain }
        requires past { n ≤ length pass.old.seen }
        requires known { last_touch N.script Q pass.old.seen n ≤ slice_index pass.old.marks Q }
        requires admitted { Admitted pred.now (rows_at (tables_at N.script pass.old.seen n) pred.now.table) }
        requires leave { IsLeave N.script N.word (P.shown leave.old) n }
        ensures found { IfOk result (λ row. row ≡ foremost direction (outside (K.has passed.now) (found_by pred.now (part Q (tables_at N.script pass.old.seen n))))) }
        ensures refused { IfErr result (IsRefusal N.script n (length pass.new.seen)) }
        ensures grown { HasGrown pass.old pass.new }
        ensures shown { P.shown leave.new ≡ P.shown leave.old }
    {
        self.check_fresh(board, word, pass, leave, n)?;
        copied_foremost(alloc, &self.store, n, pred, direction, passed)
    }

    /// Appends a call, after the writes of it that are to this shard and the shards of `rest` were put, and then makes
    /// these commit n. Returns n.
    pub(crate) fn install<R: Wait, L: ShardList<N>>(
        &mut self,
        rt: &R,
        alloc: Global,
        board: &Board<N>,
        pass: &mut Pass<N>,
        call: u32,
        writes: &[Write],
        rest: &L,
    ) -> Result<u32, NoMemory>
        requires may { MayInstall N.script (Q ∷ L.numbers) call writes.now pass.old }
        requires touched { writes_to Q writes.now ≡ true }
        ensures ok { IfOk result (λ n. HasInstalled (Q ∷ L.numbers) call writes.now n pass.old pass.new) }
        ensures err { OnErr result (HasNotInstalled pass.old pass.new) }
    {
        self.exchange(board, pass);
        let _last = self.store.last();
        put_in(&mut self.store, alloc, Q, call, writes)?;
        let n = match rest.install(rt, alloc, board, pass, call, writes) {
            Ok(n) => n,
            Err(e) => {
                self.store.drop_of(call);
                return Err(e);
            }
        };
        self.store.stamp(call, n);
        raise_mark(&mut self.pass, board, pass, Q, n);
        Ok(n)
    }

    /// Returns how many versions are kept beside the newest ones, or `u64::MAX` if there are more.
    pub(crate) fn old_versions(&self) -> u64
        ensures { result ≡ min (old_versions self.now.store.tables) (2 ^ 64 - 1) }
    {
        self.store.old_versions()
    }

    /// Drops the rows before commit `low`, or before the shard's last commit less the horizon if that is lower. Without a
    /// horizon it does nothing.
    pub(crate) fn collect(&mut self, low: u32)
        ensures { self.new.knows ≡ self.old.knows }
    {
        let Some(horizon) = self.horizon else {
            return;
        };
        let last = self.store.last();
        if last < horizon {
            return;
        }
        let to = low.min(last - horizon);
        if self.store.low() < to {
            self.store.raise(to);
        }
    }

    /// Drops the rows before a note's floor, or before the shard's last commit if that is lower. No horizon may be given.
    pub(crate) fn collect_to(&mut self, grace: &Grace<N>, note: &mut FloorNote<N>)
        requires { N.script.options.horizon ≡ None }
        ensures knows { self.new.knows ≡ self.old.knows }
        ensures last { self.new.store.last ≡ self.old.store.last }
        ensures low { self.new.store.low ≡ max self.old.store.low (min note.old self.old.store.last) }
        ensures same { note.new ≡ note.old }
    {
        let last = self.store.last();
        let to = note.floor().min(last);
        if self.store.low() < to {
            self.store.raise(to);
            self.note = Some(copy_of(note, grace));
        }
    }
}
