//! Passes, which know a beginning of the history.

ghost use Rattle.std.specs.Prelude.{◌≡◌, ◌<◌, ◌≤◌, Ok, length, false, true, slice_index};
ghost use Rattle.std.specs.List.{list_any};
ghost use lib.Dec.{eqb};
ghost use mathlib.Core.List.{IsPrefix};
ghost use Rattle.mv_seats.specs.Knowing.{Plain, Gate, plain, shard_pass, handing, has_role, met, appended, marked, Begins, IsMark};
ghost use Rattle.mv_seats.specs.Rule.{IsPassOf};

use crate::board::{Board, Making};
use crate::rule::{Appending, Copying, Counting, Handing, Loading, Meeting, Numbered, Raising};
use crate::view::View;
use atomic_table::Seat;
use mv_values::memory::NoMemory;
use std::marker::{Brand, Model, PhantomData};

/// What its holder knows of the history: the calls of the first commits, as far as it has seen them, and a mark of each
/// shard. It allocates no memory. Each method is one atomic step on the board, except `meet`, which is two.
#[derive(Drop)]
pub struct Pass<N: Making> {
    seat: Seat<u8, View>,
    of: PhantomData<N>,
}

impl<N: Making> Model for Pass<N> {
    ghost use Rattle.mv_seats.specs.Knowing.{Knows};
    ghost use Rattle.mv_seats.specs.Rule.{IsPassOf};

    ghost Value = { Knows };

    ghost view = { λ p. p.seat.me.0.knows };

    ghost invariant = { λ p. IsPassOf N.board N.script p.seat };
}

impl<N: Making> Pass<N> {
    pub(crate) fn of(seat: Seat<u8, View>) -> Pass<N>
        requires { IsPassOf N.board N.script seat }
        ensures { result ≡ seat.me.0.knows }
    {
        Pass {
            seat,
            of: PhantomData,
        }
    }

    /// Splits off a plain pass that knows as much. A pass takes no memory, so the result is always `Ok`.
    pub fn note(&mut self, board: &Board<N>) -> Result<Pass<N>, NoMemory>
        ensures same { self.new ≡ self.old }
        ensures note { result ≡ Ok (plain self.old) }
    {
        let seat = board.table.shared.split_seat::<Copying>(&mut self.seat);
        Ok(Pass::of(seat))
    }

    /// Hands the role of a shard to a new pass, which knows as much. The pass must be the gate's, and must still have
    /// that role.
    pub fn hand(&mut self, board: &Board<N>, shard: u32) -> Pass<N>
        requires gate { self.old.role ≡ Gate }
        requires has { has_role self.old shard ≡ true }
        ensures handed { self.new ≡ handing self.old shard }
        ensures given { result ≡ shard_pass self.old shard }
    {
        self.hand_named::<Brand>(board, shard)
    }

    fn hand_named<Q: Numbered>(&mut self, board: &Board<N>, shard: u32) -> Pass<N>
        requires named { Q.number ≡ shard }
        requires gate { self.old.role ≡ Gate }
        requires has { has_role self.old shard ≡ true }
        ensures handed { self.new ≡ handing self.old shard }
        ensures given { result ≡ shard_pass self.old shard }
    {
        let seat = board.table.shared.split_seat::<Handing<Q>>(&mut self.seat);
        Pass::of(seat)
    }

    /// Merges another pass into this one, and loads the count. The other pass must be plain. The longer of their two
    /// lists stays, and the other is a prefix of it. The gate's pass keeps its own list, and the other list is a prefix
    /// of it. The greater of each mark stays.
    pub fn meet(&mut self, board: &Board<N>, other: Pass<N>)
        requires { other.role ≡ Plain }
        ensures met { self.new ≡ met self.old other }
        ensures mine { IsPrefix self.old.seen self.new.seen }
        ensures theirs { IsPrefix other.seen self.new.seen }
        ensures gate { self.old.role ≡ Gate → self.new.seen ≡ self.old.seen }
    {
        let Pass { seat, of: _ } = other;
        board
            .table
            .shared
            .join_seat::<Meeting>(&mut self.seat, seat);
        board.table.shared.load::<Counting>(&mut self.seat, 0);
    }

    /// Loads the count. What the pass has seen begins the history of that length.
    pub fn count(&mut self, board: &Board<N>) -> u32
        ensures same { self.new ≡ self.old }
        ensures begins { Begins N.script self.old result }
    {
        board.table.shared.load::<Counting>(&mut self.seat, 0) as u32
    }

    /// Appends a call to the history. The pass must be the gate's, and must not have seen the call.
    pub fn append(&mut self, board: &Board<N>, call: u32)
        requires gate { self.old.role ≡ Gate }
        requires call { call < length N.script.calls }
        requires fresh { list_any (eqb call) self.old.seen ≡ false }
        ensures { self.new ≡ appended self.old call }
    {
        self.append_named::<Brand>(board, call);
    }

    fn append_named<C: Numbered>(&mut self, board: &Board<N>, call: u32)
        requires named { C.number ≡ call }
        requires role { self.old.role ≡ Gate }
        requires call { call < length N.script.calls }
        requires fresh { list_any (eqb call) self.old.seen ≡ false }
        ensures { self.new ≡ appended self.old call }
    {
        board
            .table
            .shared
            .fetch_add::<Appending<C>>(&mut self.seat, 0, 1);
    }

    /// Loads the mark of a shard, which the pass then knows. It had known no greater one. If the pass has the shard's
    /// role, it had known this one.
    pub fn installed(&mut self, board: &Board<N>, shard: u32) -> u32
        requires { shard < N.script.shards }
        ensures now { self.new ≡ marked self.old shard result }
        ensures found { slice_index self.new.marks shard ≡ result }
        ensures known { IsMark self.old shard result }
    {
        board
            .table
            .shared
            .load::<Loading>(&mut self.seat, shard as usize + 1) as u32
    }

    /// Raises the mark of a shard, whose role the pass must have. The mark must not fall, and the pass must have seen
    /// as many commits.
    pub fn install(&mut self, board: &Board<N>, shard: u32, upto: u32)
        requires there { shard < N.script.shards }
        requires own { has_role self.old shard ≡ true }
        requires rises { slice_index self.old.marks shard ≤ upto }
        requires seen { upto ≤ length self.old.seen }
        ensures now { self.new ≡ marked self.old shard upto }
        ensures raised { slice_index self.new.marks shard ≡ upto }
    {
        board
            .table
            .shared
            .store::<Raising>(&mut self.seat, shard as usize + 1, u64::from(upto));
    }
}
