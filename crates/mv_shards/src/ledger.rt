//! What the gate keeps of its shards: how far they have come, and when each has last changed.

ghost use Rattle.std.specs.Prelude.{◌≡◌, ◌<◌, ◌≤◌, ◌+◌, ◌++◌, ◌∷◌, [], ℕ, IfOk, OnOk, OnErr, false, length};
ghost use Rattle.std.specs.List.{list_any};
ghost use lib.Dec.{eqb};
ghost use mathlib.Core.List.{IsPrefix};
ghost use Rattle.mv_history.specs.Changes.{changes_between};
ghost use Rattle.mv_seats.specs.Knowing.{Plain, Gate, plain};
ghost use Rattle.mv_script.specs.Scripts.{IsCompiledScript};
ghost use Rattle.mv_shards.specs.Scripts.{script_in};
ghost use Rattle.mv_shards.specs.Histories.{tables_at};
ghost use Rattle.mv_shards.specs.Installing.{Leads};
ghost use Rattle.mv_lawful.specs.Rounds.{IsPast};
ghost use Rattle.mv_view.specs.declared.view.Refused.TheVariants.{Stale};
ghost use Rattle.mv_shards.specs.Kept.{IsLow};
ghost use Rattle.mv_shards.specs.Reads.{sight_at};
ghost use Rattle.mv_shards.specs.Leaves.{IsLeave};
ghost use Rattle.mv_shards.specs.Ledgers.{IsLedger, AreTouched, AreLastChanges};

use crate::leave::Leave;
use crate::notes::note;
use crate::parts::{SHARDS, shard_of};
use crate::shards::Shards;
use crate::start::Start;
use crate::view::ReaderView;
use mv_grace::grace::Naming;
use mv_history::change::Change;
use mv_seats::board::{Board, Making};
use mv_seats::pass::Pass;
use mv_values::copied::Copied;
use mv_values::list::List;
use mv_values::memory::NoMemory;
use mv_values::patch::Write;
use mv_view::view::Refused;
use std::alloc::Global;
use std::marker::Model;
use std::sync::Wait;

/// The gate's pass, the number of commits, and for each shard the last commit that changes a row of it, or 0.
#[derive(Drop)]
pub struct Ledger<N: Making + Naming> {
    pass: Pass<N>,
    commits: u32,
    touched: List<u32>,
}

impl<N: Making + Naming> Model for Ledger<N> {
    ghost use Rattle.mv_shards.specs.Ledgers.{Entered, IsLedger};

    ghost Value = { Entered };

    ghost view = { λ l. record { knows = l.pass; commits = l.commits; touched = l.touched } };

    ghost invariant = { λ l. IsLedger N.script l.pass l.commits l.touched };
}

impl<N: Making + Naming> Ledger<N> {
    /// Returns the ledger before any commit. The pass must be the gate's, as `Shards::new` leaves it.
    pub fn new(alloc: Global, pass: Pass<N>) -> Result<Ledger<N>, NoMemory>
        requires role { pass.role ≡ Gate }
        requires seen { pass.seen ≡ [] }
        requires script { IsCompiledScript (script_in N.script) }
        ensures commits { IfOk result (λ ledger. ledger.commits ≡ 0) }
        ensures knows { IfOk result (λ ledger. ledger.knows ≡ pass) }
    {
        let mut touched = List::new(alloc);
        touched.append(&[0; SHARDS as usize])?;
        Ok(Ledger {
            pass,
            commits: 0,
            touched,
        })
    }

    /// Returns the number of commits.
    pub fn commits(&self) -> u32
        ensures commits { result ≡ self.now.commits }
        ensures kept { IsLedger N.script self.now.knows self.now.commits self.now.touched }
    {
        let _pass = &self.pass;
        let _touched = &self.touched;
        self.commits
    }

    /// Splits off a plain pass that has seen all commits.
    pub fn pass_for(&mut self, board: &Board<N>) -> Pass<N>
        ensures same { self.new ≡ self.old }
        ensures role { result.role ≡ Plain }
        ensures seen { result.seen ≡ self.old.knows.seen }
    {
        note(&mut self.pass, board)
    }

    /// Learns that what a plain pass has seen begins the history.
    pub fn meet(&mut self, board: &Board<N>, other: Pass<N>)
        requires { other.role ≡ Plain }
        ensures commits { self.new.commits ≡ self.old.commits }
        ensures touched { self.new.touched ≡ self.old.touched }
        ensures kept { self.new.knows.seen ≡ self.old.knows.seen }
        ensures seen { IsPrefix other.seen self.old.knows.seen }
    {
        self.pass.meet(board, other);
    }

    /// Learns why a view of the tables after this many commits has refused a query: memory ran out, or the rows may be
    /// gone. `seen` is the view's pass. In the second case more commits than the horizon have been made after that.
    pub fn refused(
        &mut self,
        board: &Board<N>,
        seen: Pass<N>,
        number: u32,
        why: Refused,
    ) -> Result<(), NoMemory>
        requires role { seen.role ≡ Plain }
        requires low { (start low : ℕ) → why ≡ Stale start low → (number < low) × IsLow N.script.options.horizon low (length seen.seen) }
        ensures commits { self.new.commits ≡ self.old.commits }
        ensures touched { self.new.touched ≡ self.old.touched }
        ensures kept { self.new.knows.seen ≡ self.old.knows.seen }
        ensures past { OnOk result (IsPast N.script.options.horizon number self.old.commits) }
    {
        let _commits = self.commits();
        match why {
            Refused::NoMemory => Err(NoMemory),
            Refused::Stale {
                start: _start,
                low: _low,
            } => {
                self.meet(board, seen);
                Ok(())
            }
        }
    }

    /// Returns a view of the tables after all commits, before any query, for a reader who shows this. It allocates no
    /// memory.
    pub fn view<'a, W, P: Leave<N, W>, R: Wait>(
        &mut self,
        rt: &'a R,
        shards: &'a Shards<N>,
        board: &'a Board<N>,
        word: &'a W,
        leave: P,
    ) -> ReaderView<'a, N, W, P, R>
        requires { IsLeave N.script N.word (P.shown leave) self.old.commits }
        ensures same { self.new ≡ self.old }
        ensures sight { result.sight ≡ sight_at N.script self.old.knows.seen self.old.commits }
        ensures seen { result.seen ≡ self.old.knows.seen }
    {
        let pass = note(&mut self.pass, board);
        ReaderView::of(rt, shards, board, word, pass, leave, self.commits)
    }

    /// Returns the start after this many commits. `touched` must have for each shard the last commit up to there that
    /// changes a row of it, or 0. It allocates no memory.
    pub fn start_at(&mut self, board: &Board<N>, number: u32, touched: List<u32>) -> Start<N>
        requires past { number ≤ self.old.commits }
        requires touched { AreLastChanges N.script self.old.knows.seen number touched }
        ensures same { self.new ≡ self.old }
        ensures start { result ≡ record { number = number; knows = plain self.old.knows; touched = touched } }
    {
        Start::of(note(&mut self.pass, board), number, touched)
    }

    /// Returns the start after all commits. Its pass has seen what the other pass, which must be plain, had seen.
    pub fn start(
        &mut self,
        alloc: Global,
        board: &Board<N>,
        other: &mut Pass<N>,
    ) -> Result<Start<N>, NoMemory>
        requires plain { other.old.role ≡ Plain }
        ensures same { other.new ≡ other.old }
        ensures commits { self.new.commits ≡ self.old.commits }
        ensures touched { self.new.touched ≡ self.old.touched }
        ensures kept { self.new.knows.seen ≡ self.old.knows.seen }
        ensures number { IfOk result (λ start. start.number ≡ self.old.commits) }
        ensures whole { IfOk result (λ start. start.knows.seen ≡ self.old.knows.seen) }
        ensures all { IfOk result (λ start. start.number ≡ length start.knows.seen) }
        ensures seen { IfOk result (λ start. IsPrefix other.old.seen start.knows.seen) }
    {
        let theirs = note(other, board);
        self.pass.meet(board, theirs);
        let touched = self.touched.copy(alloc)?;
        Ok(Start::of(note(&mut self.pass, board), self.commits, touched))
    }

    /// Appends a call as commit n with these writes, which each shard that they are to then has, and returns n. `changes`
    /// must be those of the commit. If memory runs out, the call hasn't committed.
    pub fn commit<R: Wait>(
        &mut self,
        rt: &R,
        alloc: Global,
        board: &Board<N>,
        shards: &Shards<N>,
        call: u32,
        writes: &List<Write>,
        changes: &[Change],
    ) -> Result<u32, NoMemory>
        requires call { call < length N.script.calls }
        requires fresh { list_any (eqb call) self.old.knows.seen ≡ false }
        requires leads { Leads N.script self.old.knows call writes.now }
        requires changes { changes.now ≡ changes_between (tables_at N.script self.old.knows.seen self.old.commits) (tables_at N.script (self.old.knows.seen ++ call ∷ []) (self.old.commits + 1)) }
        ensures number { IfOk result (λ n. n ≡ self.old.commits + 1) }
        ensures counted { IfOk result (λ n. self.new.commits ≡ n) }
        ensures appended { IfOk result (λ n. self.new.knows.seen ≡ self.old.knows.seen ++ call ∷ []) }
        ensures err { OnErr result (self.new.knows.seen ≡ self.old.knows.seen) }
        ensures stays { OnErr result (self.new.commits ≡ self.old.commits) }
    {
        let n = shards.install(rt, alloc, board, &mut self.pass, call, writes)?;
        touch(&mut self.touched, changes, n);
        self.commits = n;
        Ok(n)
    }
}

/// Notes that commit n has made these changes.
fn touch(touched: &mut List<u32>, changes: &[Change], n: u32)
    requires { length touched.old ≡ 8 }
    ensures size { length touched.new ≡ 8 }
    ensures each { AreTouched changes.now n touched.old touched.new }
{
    for change in changes {
        touched.set(shard_of(change.table, &change.key) as usize, n);
    }
}
