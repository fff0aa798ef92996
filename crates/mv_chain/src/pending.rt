//! Patches of calls that have not committed.

ghost use Rattle.std.specs.Prelude.{◌≡◌, ◌==◌, ◌<◌, IfSome, length};
ghost use Rattle.std.specs.List.{position};
ghost use Rattle.mv_chain.specs.Versions.{without};

use mv_values::patch::Patch;

/// A patch of a row, and the number of the call that made it.
#[derive(Drop)]
pub struct Pending {
    pub call: u32,
    pub patch: Patch,
}

/// Returns the place of a call's patch in the list.
pub(crate) fn place_of(own: &[Pending], call: u32) -> Option<usize>
    ensures value { result ≡ position (λ p. p.call == call) own.now }
    ensures within { IfSome result (λ at. at < length own.now) }
{
    own.iter().position(|pending| pending.call == call)
}
