//! Notes of passes.

ghost use Rattle.std.specs.Prelude.{◌≡◌};
ghost use Rattle.mv_seats.specs.Knowing.{plain};

use mv_seats::board::{Board, Making};
use mv_seats::pass::Pass;

/// Splits off a plain pass that knows as much. It allocates no memory.
pub(crate) fn note<N: Making>(pass: &mut Pass<N>, board: &Board<N>) -> Pass<N>
    ensures same { pass.new ≡ pass.old }
    ensures note { result ≡ plain pass.old }
{
    let Ok(note) = pass.note(board) else {
        unreachable!();
    };
    note
}
