//! What lies beside the gate's lock.

ghost use Rattle.std.specs.Prelude.{◌≡◌};
ghost use Rattle.mv_shards.specs.Scripts.{script_in};
ghost use Rattle.mv_shards.specs.Reads.{sight_at};
ghost use Rattle.mv_shards.specs.Leaves.{IsLeave, start_shown};

use mv_grace::grace::{Grace, Naming};
use mv_grace::pin::Pin;
use mv_script::script::CompiledScript;
use mv_seats::board::{Board, Making};
use mv_shards::shards::Shards;
use mv_shards::start::Start;
use mv_shards::view::ReaderView;
use std::sync::Wait;

/// What lies beside the gate's lock: the script, the rows in their shards, the board, and the word that counts readers.
/// Each thread may read it without the lock.
#[derive(Drop)]
pub struct Beside<'a, N: Making + Naming, R: Wait> {
    pub(crate) rt: &'a R,
    pub(crate) script: &'a CompiledScript,
    pub(crate) shards: &'a Shards<N>,
    pub(crate) board: &'a Board<N>,
    pub(crate) grace: &'a Grace<N>,
    ghost named: { script.now ≡ script_in N.script },
}

impl<'a, N: Making + Naming, R: Wait> Beside<'a, N, R> {
    /// Returns what lies beside a lock. The script must be the one that `N` names.
    pub fn new(
        rt: &'a R,
        script: &'a CompiledScript,
        shards: &'a Shards<N>,
        board: &'a Board<N>,
        grace: &'a Grace<N>,
    ) -> Beside<'a, N, R>
        requires { script.now ≡ script_in N.script }
    {
        Beside {
            rt,
            script,
            shards,
            board,
            grace,
        }
    }

    /// Returns a view of the tables at a start, before any query, for a reader with this pin, or with none if readers need
    /// none. It takes no memory.
    pub(crate) fn view(
        &self,
        start: &mut Start<N>,
        pin: Option<Pin<N>>,
    ) -> ReaderView<'a, N, Grace<N>, Option<Pin<N>>, R>
        requires { IsLeave N.script N.word (start_shown pin) start.old.number }
        ensures sight { result.sight ≡ sight_at N.script start.old.knows.seen start.old.number }
        ensures seen { result.seen ≡ start.old.knows.seen }
        ensures same { start.new ≡ start.old }
    {
        ReaderView::at(self.rt, self.shards, self.board, self.grace, start, pin)
    }
}
