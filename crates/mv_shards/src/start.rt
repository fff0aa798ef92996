//! Starts of calls.

ghost use Rattle.std.specs.Prelude.{◌≡◌, ◌<◌, ℕ, length, OnOk};
ghost use mathlib.Core.List.{IsPrefix};
ghost use Rattle.mv_seats.specs.Knowing.{Plain};
ghost use Rattle.mv_lawful.specs.Rounds.{IsPast};
ghost use Rattle.mv_view.specs.declared.view.Refused.TheVariants.{Stale};
ghost use Rattle.mv_shards.specs.Kept.{IsLow};
ghost use Rattle.mv_shards.specs.Reads.{IsStart};

use crate::notes::note;
use mv_seats::board::{Board, Making};
use mv_seats::pass::Pass;
use mv_values::list::List;
use mv_values::memory::NoMemory;
use mv_view::view::Refused;
use std::marker::Model;

/// The start of a call: a number of commits, a pass that has seen as many, and for each shard the last commit up to the
/// start that changes a row of the shard, or 0.
#[derive(Drop)]
pub struct Start<N: Making> {
    pub(crate) number: u32,
    pub(crate) pass: Pass<N>,
    pub(crate) touched: List<u32>,
}

impl<N: Making> Model for Start<N> {
    ghost use Rattle.mv_shards.specs.Reads.{Started, IsStart};

    ghost Value = { Started };

    ghost view = { λ s. record { number = s.number; knows = s.pass; touched = s.touched } };

    ghost invariant = { λ s. IsStart N.script s.number s.pass s.touched };
}

impl<N: Making> Start<N> {
    /// Returns the start of this number. It allocates no memory.
    pub fn of(pass: Pass<N>, number: u32, touched: List<u32>) -> Start<N>
        requires { IsStart N.script number pass touched }
        ensures { result ≡ record { number = number; knows = pass; touched = touched } }
    {
        Start {
            number,
            pass,
            touched,
        }
    }

    /// Returns the number of commits.
    pub fn number(&self) -> u32
        ensures number { result ≡ self.now.number }
        ensures kept { IsStart N.script self.now.number self.now.knows self.now.touched }
    {
        let _pass = &self.pass;
        self.number
    }

    /// Returns for each shard the last commit up to the start that changes a row of it, or 0.
    pub fn touched(&self) -> &List<u32>
        ensures touched { result.now ≡ self.now.touched }
        ensures kept { IsStart N.script self.now.number self.now.knows self.now.touched }
    {
        let _pass = &self.pass;
        let _number = self.number;
        &self.touched
    }

    /// Splits off a plain pass that has seen as much.
    pub fn pass_for(&mut self, board: &Board<N>) -> Pass<N>
        ensures same { self.new ≡ self.old }
        ensures role { result.role ≡ Plain }
        ensures seen { result.seen ≡ self.old.knows.seen }
    {
        note(&mut self.pass, board)
    }

    /// Learns what a plain pass has seen.
    pub fn learn(&mut self, board: &Board<N>, other: Pass<N>)
        requires { other.role ≡ Plain }
        ensures number { self.new.number ≡ self.old.number }
        ensures touched { self.new.touched ≡ self.old.touched }
        ensures seen { IsPrefix self.old.knows.seen self.new.knows.seen }
        ensures theirs { IsPrefix other.seen self.new.knows.seen }
    {
        self.pass.meet(board, other);
    }

    /// Learns why a view of the start has refused a query: memory ran out, or the rows may be gone. `seen` is the view's
    /// pass. In the second case more commits than the horizon have been made after the start.
    pub fn refused(&mut self, board: &Board<N>, seen: Pass<N>, why: Refused) -> Result<(), NoMemory>
        requires role { seen.role ≡ Plain }
        requires low { (start low : ℕ) → why ≡ Stale start low → (self.old.number < low) × IsLow N.script.options.horizon low (length seen.seen) }
        ensures number { self.new.number ≡ self.old.number }
        ensures touched { self.new.touched ≡ self.old.touched }
        ensures seen { IsPrefix self.old.knows.seen self.new.knows.seen }
        ensures past { OnOk result (IsPast N.script.options.horizon self.old.number (length self.new.knows.seen)) }
    {
        match why {
            Refused::NoMemory => Err(NoMemory),
            Refused::Stale {
                start: _start,
                low: _low,
            } => {
                self.learn(board, seen);
                Ok(())
            }
        }
    }
}
