//! The calls of procedures that are found by name.

ghost use Rattle.std.specs.Prelude.{◌≡◌};
ghost use Rattle.mv_tpccsum.specs.Calls.{procedure_place, is_call_of, is_end_of, calls_of, ends_of};

use mv_catalog::resolved::{ProcInfo, Resolved};
use mv_values::calls::{Call, Reply};

/// Returns the place of the procedure with a name.
fn procedure_place(procedures: &[ProcInfo], name: &str) -> Option<usize>
    ensures { result ≡ procedure_place procedures.now name.now }
{
    procedures
        .iter()
        .position(|procedure| procedure.name.as_slice() == name.as_bytes())
}

fn is_call_of(place: Option<usize>, call: &Call) -> bool
    ensures { result ≡ is_call_of place call.now }
{
    match place {
        Some(place) => place == call.procedure as usize,
        None => false,
    }
}

/// Whether it is a call of the procedure, and was rolled back.
fn is_end_of(place: Option<usize>, call: &Call, reply: &Reply) -> bool
    ensures { result ≡ is_end_of place (call.now, reply.now) }
{
    is_call_of(place, call) && reply.end.is_some()
}

/// Returns how many calls a procedure has.
#[tactic(auto, unfolding(crate::specs::Calls::calls_of))]
pub(crate) fn calls_of(resolved: &Resolved, name: &str) -> usize
    ensures { result ≡ calls_of resolved.now name.now }
{
    let place = procedure_place(resolved.procedures.as_slice(), name);
    let calls = resolved.calls.as_slice();
    calls.iter().filter(|call| is_call_of(place, call)).count()
}

/// Returns how many calls of a procedure were rolled back.
#[tactic(auto, unfolding(crate::specs::Calls::ends_of))]
pub(crate) fn ends_of(resolved: &Resolved, replies: &[Reply], name: &str) -> usize
    ensures { result ≡ ends_of resolved.now replies.now name.now }
{
    let place = procedure_place(resolved.procedures.as_slice(), name);
    let calls = resolved.calls.as_slice();
    calls
        .iter()
        .zip(replies.iter())
        .filter(|(call, reply)| is_end_of(place, call, reply))
        .count()
}
