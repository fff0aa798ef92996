//! How the last round of a call came about.

ghost use Rattle.std.specs.Prelude.{◌≡◌, ◌<◌, length};
ghost use Rattle.std.specs.Option.{is_some};
ghost use Rattle.mv_lawful.specs.Rounds.{round_starts_in, last_number};
ghost use Rattle.mv_gate.specs.Gates.{repaired_by, repaired_from};

use mv_journal::outcome::{Mark, Round};

/// Returns the start that a round with this mark was repaired from, if the round before it has this one.
fn repaired_by(mark: Mark, start: u32) -> Option<u32>
    ensures { result ≡ repaired_by mark start }
{
    match mark {
        Mark::Moved => None,
        Mark::Plain | Mark::Exclusive => Some(start),
    }
}

/// Returns the start that the last of these rounds was repaired from. The first round and a move have none.
pub(crate) fn repaired_from(rounds: &[Round]) -> Option<u32>
    ensures { result ≡ repaired_from (round_starts_in rounds.now) }
{
    let count = rounds.len();
    if count < 2 {
        return None;
    }
    repaired_by(rounds[count - 1].mark, rounds[count - 2].start)
}

/// Whether the last of these rounds has its number. There must be a round.
pub(crate) fn has_number(rounds: &[Round]) -> bool
    requires { 0 < length rounds.now }
    ensures { result ≡ is_some (last_number rounds.now) }
{
    rounds[rounds.len() - 1].count.is_some()
}
