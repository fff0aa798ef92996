//! Shards whose readers hold pins. They are collected up to a floor, and no read is refused for it.

ghost use Rattle.std.specs.Prelude.{◌≡◌, None, [], false, IfOk, OnOk, OnErr};
ghost use mathlib.Core.List.{IsPrefix};
ghost use Rattle.mv_values.specs.Patching.{found_by};
ghost use Rattle.mv_values.specs.Tables.{rows_at};
ghost use Rattle.mv_record.specs.Admitting.{Admitted};
ghost use Rattle.mv_seats.specs.Knowing.{gate_pass, Gate};
ghost use Rattle.mv_script.specs.Scripts.{IsCompiledScript};
ghost use Rattle.mv_shards.specs.Scripts.{script_in};
ghost use Rattle.mv_shards.specs.Parts.{eight};
ghost use Rattle.mv_shards.specs.Histories.{tables_at};
ghost use Rattle.mv_shards.specs.Installing.{MayInstall, HasInstalled, HasNotInstalled};

use crate::shards::Shards;
use crate::start::Start;
use crate::view::ReaderView;
use mv_grace::grace::{Grace, Naming};
use mv_grace::note::FloorNote;
use mv_grace::pin::Pin;
use mv_seats::board::{Board, Making};
use mv_seats::pass::Pass;
use mv_values::list::List;
use mv_values::memory::NoMemory;
use mv_values::patch::Write;
use mv_values::pred_ref::PredRef;
use mv_values::rows::{Database, Rows};
use mv_values::tested::Tested;
use mv_view::view::Refused;
use std::alloc::Global;
use std::sync::Wait;

/// A start, and the pin of its reader.
#[derive(Drop)]
pub struct Pinned<N: Making + Naming> {
    pub start: Start<N>,
    pub pin: Pin<N>,
    ghost same: { start.number ≡ pin.reader.start },
}

/// The rows of a database in eight shards, for a script without a horizon.
#[derive(Drop)]
pub struct PinnedShards<N: Making + Naming> {
    shards: Shards<N>,
    ghost open: { N.script.options.horizon ≡ None },
}

impl<N: Making + Naming> PinnedShards<N> {
    /// Returns the shards of the script's database, as `Shards::new`. No horizon may be given.
    pub fn new(
        alloc: Global,
        opening: &Database,
        board: &Board<N>,
        pass: &mut Pass<N>,
        columns: &List<Tested>,
    ) -> Result<PinnedShards<N>, NoMemory>
        requires script { IsCompiledScript (script_in N.script) }
        requires shards { N.script.shards ≡ 8 }
        requires opening { opening.now ≡ N.script.opening }
        requires horizon { N.script.options.horizon ≡ None }
        requires pass { pass.old ≡ gate_pass }
        ensures role { OnOk result (pass.new.role ≡ Gate) }
        ensures seen { OnOk result (pass.new.seen ≡ []) }
        ensures marks { OnOk result (pass.new.marks ≡ []) }
    {
        let shards = Shards::new(alloc, opening, None, board, pass, columns)?;
        Ok(PinnedShards { shards })
    }

    /// Returns the shards, for readers who show a pin.
    pub fn shards(&self) -> &Shards<N>
        ensures { N.script.options.horizon ≡ None }
    {
        &self.shards
    }

    /// Appends a call as commit n with these writes, and returns n. It holds the locks of the written shards together.
    pub fn install<R: Wait>(
        &self,
        rt: &R,
        alloc: Global,
        board: &Board<N>,
        pass: &mut Pass<N>,
        call: u32,
        writes: &List<Write>,
    ) -> Result<u32, NoMemory>
        requires { MayInstall N.script eight call writes.now pass.old }
        ensures ok { IfOk result (λ n. HasInstalled eight call writes.now n pass.old pass.new) }
        ensures err { OnErr result (HasNotInstalled pass.old pass.new) }
    {
        self.shards.install(rt, alloc, board, pass, call, writes)
    }

    /// Returns copies of the rows that the predicate matches at a start, in key order, whatever was collected.
    pub fn rows_at<R: Wait>(
        &self,
        rt: &R,
        alloc: Global,
        board: &Board<N>,
        grace: &Grace<N>,
        start: &mut Pinned<N>,
        pred: &PredRef<'_>,
    ) -> Result<Rows, NoMemory>
        requires admitted { Admitted pred.now (rows_at (tables_at N.script start.old.start.knows.seen start.old.start.number) pred.now.table) }
        ensures found { IfOk result (λ rows. rows ≡ found_by pred.now (tables_at N.script start.old.start.knows.seen start.old.start.number)) }
        ensures seen { IsPrefix start.old.start.knows.seen start.new.start.knows.seen }
        ensures number { start.new.start.number ≡ start.old.start.number }
        ensures touched { start.new.start.touched ≡ start.old.start.touched }
        ensures pin { start.new.pin.reader.start ≡ start.old.pin.reader.start }
    {
        match self.shards.rows_for(
            rt,
            alloc,
            board,
            grace,
            &mut start.start,
            &mut start.pin,
            pred,
        ) {
            Ok(rows) => Ok(rows),
            Err(Refused::NoMemory) => Err(NoMemory),
            Err(Refused::Stale { .. }) => unreachable!(),
        }
    }

    /// Drops the rows of each shard before a note's floor, or before the shard's last commit if that is lower. It allocates
    /// no memory, so the result is always `Ok`.
    pub fn collect<R: Wait>(
        &self,
        rt: &R,
        grace: &Grace<N>,
        note: &mut FloorNote<N>,
    ) -> Result<(), NoMemory>
        ensures ok { OnErr result ⊥ }
        ensures same { note.new ≡ note.old }
    {
        self.shards.collect_to(rt, grace, note);
        Ok(())
    }
}

/// A view for a reader who holds a pin of its start. It is never stale.
pub type PinnedView<'a, N, R> = ReaderView<'a, N, Grace<N>, Pin<N>, R>;

impl<'a, N: Making + Naming, R: Wait> ReaderView<'a, N, Grace<N>, Pin<N>, R> {
    /// Returns a view of the tables at a start, before any query. The pin must be of the same start. `into_parts` gives it
    /// back. It allocates no memory.
    pub fn pinned(
        rt: &'a R,
        shards: &'a PinnedShards<N>,
        board: &'a Board<N>,
        grace: &'a Grace<N>,
        start: &mut Start<N>,
        pin: Pin<N>,
    ) -> ReaderView<'a, N, Grace<N>, Pin<N>, R>
        requires { pin.reader.start ≡ start.old.number }
        ensures sight { result.sight ≡ record { database = tables_at N.script start.old.knows.seen start.old.number; start = start.old.number; may_be_stale = false; stale_answers = 0; last_low = 0; rows_calls = 0; row_calls = 0 } }
        ensures seen { result.seen ≡ start.old.knows.seen }
        ensures same { start.new ≡ start.old }
    {
        ReaderView::at(rt, shards.shards(), board, grace, start, pin)
    }
}
