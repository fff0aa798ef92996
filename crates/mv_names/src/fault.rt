//! Faults of names and types, and their order.

ghost use Rattle.std.specs.Prelude.{◌≡◌, ◌++◌, OnOk};
ghost use Rattle.mv_names.specs.First.{is_before, rank, when, IsFirstOf};
ghost use Rattle.mv_names.specs.First as kinds;
ghost use Rattle.mv_names.specs.Earlier.{earlier_of};

use mv_values::list::List;
use mv_values::memory::NoMemory;

/// The kind of a fault. If several faults are at one token, the kind listed first here counts.
#[derive(Clone, Copy)]
pub enum FaultKind {
    /// A name that isn't declared.
    UnknownName,
    /// A name that is already taken.
    DoubleName,
    /// A value or list whose type or length doesn't fit its place, or a target that can't be assigned.
    WrongType,
    /// A key column in the SET list of an UPDATE.
    KeyAssigned,
    /// An item after an item of a later kind, or a second journal.
    Late,
    /// A table that a READ ONLY procedure changes.
    Writes,
}

/// A fault at a token. `token` is the token's number.
#[derive(Clone, Copy)]
pub struct TokenFault {
    pub token: u32,
    pub kind: FaultKind,
}

/// Returns the position of a kind in `FaultKind`.
fn rank_of(kind: FaultKind) -> u8
    ensures { result ≡ rank kind }
{
    match kind {
        FaultKind::UnknownName => 0,
        FaultKind::DoubleName => 1,
        FaultKind::WrongType => 2,
        FaultKind::KeyAssigned => 3,
        FaultKind::Late => 4,
        FaultKind::Writes => 5,
    }
}

/// Whether a fault comes before another.
fn comes_before(fault: TokenFault, other: TokenFault) -> bool
    ensures { result ≡ is_before fault other }
{
    fault.token < other.token
        || (fault.token == other.token && rank_of(fault.kind) < rank_of(other.kind))
}

impl TokenFault {
    /// Returns a fault for a name that isn't declared.
    pub(crate) fn unknown(token: u32) -> TokenFault
        ensures { result ≡ kinds.unknown token }
    {
        TokenFault {
            token,
            kind: FaultKind::UnknownName,
        }
    }

    /// Returns a fault for a name that is already taken.
    pub(crate) fn double(token: u32) -> TokenFault
        ensures { result ≡ kinds.double token }
    {
        TokenFault {
            token,
            kind: FaultKind::DoubleName,
        }
    }

    /// Returns a fault for a value or list whose type or length doesn't fit its place.
    pub(crate) fn wrong(token: u32) -> TokenFault
        ensures { result ≡ kinds.wrong token }
    {
        TokenFault {
            token,
            kind: FaultKind::WrongType,
        }
    }

    /// Returns a fault for a key column in SET.
    pub(crate) fn key_set(token: u32) -> TokenFault
        ensures { result ≡ kinds.key_set token }
    {
        TokenFault {
            token,
            kind: FaultKind::KeyAssigned,
        }
    }

    /// Returns a fault for an item after an item of a later kind.
    pub(crate) fn late(token: u32) -> TokenFault
        ensures { result ≡ kinds.late token }
    {
        TokenFault {
            token,
            kind: FaultKind::Late,
        }
    }

    /// Returns a fault for a table that a READ ONLY procedure changes.
    pub(crate) fn writing(token: u32) -> TokenFault
        ensures { result ≡ kinds.writing token }
    {
        TokenFault {
            token,
            kind: FaultKind::Writes,
        }
    }
}

/// Adds a fault if the test holds.
pub(crate) fn add_if(
    faults: &mut List<TokenFault>,
    holds: bool,
    fault: TokenFault,
) -> Result<(), NoMemory>
    ensures { OnOk result (faults.new ≡ faults.old ++ when holds fault) }
{
    if holds {
        faults.push(fault)?;
    }
    Ok(())
}

/// Returns the earlier of the first fault so far and another one.
fn earlier(first: Option<TokenFault>, fault: TokenFault) -> TokenFault
    ensures { result ≡ earlier_of first fault }
{
    match first {
        None => fault,
        Some(best) => {
            if comes_before(fault, best) {
                fault
            } else {
                best
            }
        }
    }
}

/// Returns the fault that comes first by token, then by kind. Returns `None` only if there are no faults. Costs one
/// pass over the faults.
pub fn first_of(faults: &[TokenFault]) -> Option<TokenFault>
    ensures { IsFirstOf faults.now result }
{
    let mut first = None;
    for fault in faults {
        first = Some(earlier(first, *fault));
    }
    first
}
