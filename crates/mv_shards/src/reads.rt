//! Reads of eight shards.

ghost use Rattle.std.specs.Prelude.{◌≡◌, IfOk, IfErr, length};
ghost use mathlib.Core.List.{IsPrefix};
ghost use Rattle.mv_values.specs.Patching.{found_by, row_of};
ghost use Rattle.mv_values.specs.Preds.{matched};
ghost use Rattle.mv_values.specs.Tables.{rows_at};
ghost use Rattle.mv_table.specs.Scans.{foremost};
ghost use Rattle.mv_record.specs.Admitting.{Admitted};
ghost use Rattle.mv_view.specs.Narrowing.{outside};
ghost use Rattle.mv_shards.specs.Parts.{eight};
ghost use Rattle.mv_shards.specs.Histories.{tables_at};
ghost use Rattle.mv_shards.specs.Kept.{HasGrown};
ghost use Rattle.mv_shards.specs.Reads.{MayRead, IsRefusal};
ghost use Rattle.mv_shards.specs.Leaves.{IsLeave};

use crate::fixing::fixed_shard;
use crate::found::foremost_in;
use crate::leave::Leave;
use crate::parts::shard_of;
use crate::shard_list::ShardList;
use crate::start::Start;
use mv_grace::grace::Naming;
use mv_seats::board::{Board, Making};
use mv_seats::pass::Pass;
use mv_table::scan::Direction;
use mv_table::table::Table;
use mv_values::pred_ref::PredRef;
use mv_values::rows::{Keyed, Rows};
use mv_values::value::{Key, Row};
use mv_view::key_set::KeySet;
use mv_view::view::Refused;
use std::alloc::Global;
use std::sync::Wait;

/// Returns copies of the rows that the predicate matches after n commits, from each shard. One lock is held at a time.
fn gathered_rows<N: Making + Naming, L: ShardList<N>, R: Wait, W, P: Leave<N, W>>(
    shards: &L,
    rt: &R,
    alloc: Global,
    board: &Board<N>,
    word: &W,
    pass: &mut Pass<N>,
    leave: &mut P,
    n: u32,
    pred: &PredRef<'_>,
) -> Result<Rows, Refused>
    requires all { L.numbers ≡ eight }
    requires may { MayRead N.script eight n pass.old }
    requires admitted { Admitted pred.now (rows_at (tables_at N.script pass.old.seen n) pred.now.table) }
    requires leave { IsLeave N.script N.word (P.shown leave.old) n }
    ensures found { IfOk result (λ rows. rows ≡ found_by pred.now (tables_at N.script pass.old.seen n)) }
    ensures refused { IfErr result (IsRefusal N.script n (length pass.new.seen)) }
    ensures grown { HasGrown pass.old pass.new }
    ensures shown { P.shown leave.new ≡ P.shown leave.old }
{
    let mut found = Table::new(alloc);
    shards.gather(rt, alloc, board, word, pass, leave, n, pred, &mut found)?;
    let rows = found.into_rows(alloc)?;
    Ok(rows)
}

/// Returns copies of the rows that the predicate matches after n commits, in key order. It looks at one shard if the
/// predicate fixes it.
pub(crate) fn rows_over<N: Making + Naming, L: ShardList<N>, R: Wait, W, P: Leave<N, W>>(
    shards: &L,
    rt: &R,
    alloc: Global,
    board: &Board<N>,
    word: &W,
    pass: &mut Pass<N>,
    leave: &mut P,
    n: u32,
    pred: &PredRef<'_>,
) -> Result<Rows, Refused>
    requires all { L.numbers ≡ eight }
    requires may { MayRead N.script eight n pass.old }
    requires admitted { Admitted pred.now (rows_at (tables_at N.script pass.old.seen n) pred.now.table) }
    requires leave { IsLeave N.script N.word (P.shown leave.old) n }
    ensures found { IfOk result (λ rows. rows ≡ found_by pred.now (tables_at N.script pass.old.seen n)) }
    ensures refused { IfErr result (IsRefusal N.script n (length pass.new.seen)) }
    ensures grown { HasGrown pass.old pass.new }
    ensures shown { P.shown leave.new ≡ P.shown leave.old }
{
    match fixed_shard(pred) {
        Some(shard) => shards.rows_of(rt, alloc, board, word, pass, leave, n, shard, pred),
        None => gathered_rows(shards, rt, alloc, board, word, pass, leave, n, pred),
    }
}

/// Returns a copy of the first row of all shards in this direction that the predicate matches after n commits and whose
/// key isn't in `passed`.
fn foremost_of_all<N: Making + Naming, L: ShardList<N>, R: Wait, K: KeySet, W, P: Leave<N, W>>(
    shards: &L,
    rt: &R,
    alloc: Global,
    board: &Board<N>,
    word: &W,
    pass: &mut Pass<N>,
    leave: &mut P,
    n: u32,
    pred: &PredRef<'_>,
    direction: Direction,
    passed: &K,
) -> Result<Option<Keyed>, Refused>
    requires all { L.numbers ≡ eight }
    requires may { MayRead N.script eight n pass.old }
    requires admitted { Admitted pred.now (rows_at (tables_at N.script pass.old.seen n) pred.now.table) }
    requires leave { IsLeave N.script N.word (P.shown leave.old) n }
    ensures found { IfOk result (λ row. row ≡ foremost direction (outside (K.has passed.now) (found_by pred.now (tables_at N.script pass.old.seen n)))) }
    ensures refused { IfErr result (IsRefusal N.script n (length pass.new.seen)) }
    ensures grown { HasGrown pass.old pass.new }
    ensures shown { P.shown leave.new ≡ P.shown leave.old }
{
    let rows = gathered_rows(shards, rt, alloc, board, word, pass, leave, n, pred)?;
    let row = foremost_in(alloc, rows.as_slice(), direction, passed)?;
    Ok(row)
}

/// Returns a copy of the first row in this direction that the predicate matches after n commits and whose key isn't in
/// `passed`. It looks at one shard if the predicate fixes it.
pub(crate) fn foremost_over<
    N: Making + Naming,
    L: ShardList<N>,
    R: Wait,
    K: KeySet,
    W,
    P: Leave<N, W>,
>(
    shards: &L,
    rt: &R,
    alloc: Global,
    board: &Board<N>,
    word: &W,
    pass: &mut Pass<N>,
    leave: &mut P,
    n: u32,
    pred: &PredRef<'_>,
    direction: Direction,
    passed: &K,
) -> Result<Option<Keyed>, Refused>
    requires all { L.numbers ≡ eight }
    requires may { MayRead N.script eight n pass.old }
    requires admitted { Admitted pred.now (rows_at (tables_at N.script pass.old.seen n) pred.now.table) }
    requires leave { IsLeave N.script N.word (P.shown leave.old) n }
    ensures found { IfOk result (λ row. row ≡ foremost direction (outside (K.has passed.now) (found_by pred.now (tables_at N.script pass.old.seen n)))) }
    ensures refused { IfErr result (IsRefusal N.script n (length pass.new.seen)) }
    ensures grown { HasGrown pass.old pass.new }
    ensures shown { P.shown leave.new ≡ P.shown leave.old }
{
    match fixed_shard(pred) {
        Some(shard) => shards.foremost_of(
            rt, alloc, board, word, pass, leave, n, shard, pred, direction, passed,
        ),
        None => foremost_of_all(
            shards, rt, alloc, board, word, pass, leave, n, pred, direction, passed,
        ),
    }
}

/// Returns a copy of the row under a key after n commits. It looks at one shard.
pub(crate) fn row_over<N: Making + Naming, L: ShardList<N>, R: Wait, W, P: Leave<N, W>>(
    shards: &L,
    rt: &R,
    alloc: Global,
    board: &Board<N>,
    word: &W,
    pass: &mut Pass<N>,
    leave: &mut P,
    n: u32,
    table: u8,
    key: &Key,
) -> Result<Option<Row>, Refused>
    requires all { L.numbers ≡ eight }
    requires may { MayRead N.script eight n pass.old }
    requires leave { IsLeave N.script N.word (P.shown leave.old) n }
    ensures found { IfOk result (λ row. row ≡ row_of (rows_at (tables_at N.script pass.old.seen n) table) key.now) }
    ensures refused { IfErr result (IsRefusal N.script n (length pass.new.seen)) }
    ensures grown { HasGrown pass.old pass.new }
    ensures shown { P.shown leave.new ≡ P.shown leave.old }
{
    let shard = shard_of(table, key);
    shards.row_of(rt, alloc, board, word, pass, leave, n, shard, table, key)
}

/// Returns a copy of the row under a key after n commits, if the predicate matches it. It looks at one shard.
pub(crate) fn match_over<N: Making + Naming, L: ShardList<N>, R: Wait, W, P: Leave<N, W>>(
    shards: &L,
    rt: &R,
    alloc: Global,
    board: &Board<N>,
    word: &W,
    pass: &mut Pass<N>,
    leave: &mut P,
    n: u32,
    pred: &PredRef<'_>,
    key: &Key,
) -> Result<Option<Row>, Refused>
    requires all { L.numbers ≡ eight }
    requires may { MayRead N.script eight n pass.old }
    requires leave { IsLeave N.script N.word (P.shown leave.old) n }
    ensures found { IfOk result (λ row. row ≡ matched pred.now (row_of (rows_at (tables_at N.script pass.old.seen n) pred.now.table) key.now)) }
    ensures refused { IfErr result (IsRefusal N.script n (length pass.new.seen)) }
    ensures grown { HasGrown pass.old pass.new }
    ensures shown { P.shown leave.new ≡ P.shown leave.old }
{
    let shard = shard_of(pred.table(), key);
    shards.match_of(rt, alloc, board, word, pass, leave, n, shard, pred, key)
}

/// Returns copies of the rows that the predicate matches at a start, in key order.
pub(crate) fn rows_from<N: Making + Naming, L: ShardList<N>, R: Wait, W, P: Leave<N, W>>(
    shards: &L,
    rt: &R,
    alloc: Global,
    board: &Board<N>,
    word: &W,
    start: &mut Start<N>,
    leave: &mut P,
    pred: &PredRef<'_>,
) -> Result<Rows, Refused>
    requires all { L.numbers ≡ eight }
    requires admitted { Admitted pred.now (rows_at (tables_at N.script start.old.knows.seen start.old.number) pred.now.table) }
    requires leave { IsLeave N.script N.word (P.shown leave.old) start.old.number }
    ensures found { IfOk result (λ rows. rows ≡ found_by pred.now (tables_at N.script start.old.knows.seen start.old.number)) }
    ensures refused { IfErr result (IsRefusal N.script start.old.number (length start.new.knows.seen)) }
    ensures seen { IsPrefix start.old.knows.seen start.new.knows.seen }
    ensures number { start.new.number ≡ start.old.number }
    ensures touched { start.new.touched ≡ start.old.touched }
    ensures shown { P.shown leave.new ≡ P.shown leave.old }
{
    let n = start.number;
    rows_over(
        shards,
        rt,
        alloc,
        board,
        word,
        &mut start.pass,
        leave,
        n,
        pred,
    )
}
