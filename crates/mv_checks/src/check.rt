//! Checks of statements.

ghost use Rattle.std.specs.Prelude.{◌≡◌};
ghost use Rattle.mv_recorded.specs.Asking.{is_among};

use mv_values::calls::End;
use mv_values::pred::Pred;
use mv_values::value::Key;

/// What a statement checks after it made a row or found rows, and how the call ends if that fails.
#[derive(Drop)]
pub enum Check {
    /// A value has a fault, so this check always fails.
    Faults(End),
    /// The predicate finds a row.
    Needs(Pred, End),
    /// The predicate finds no row. If the flag is set, it may find rows that the statement itself found.
    Forbids(Pred, bool, End),
}

/// Whether the key is one of these.
pub fn is_among(keys: &[Key], key: &Key) -> bool
    ensures { result ≡ is_among keys.now key.now }
{
    keys.iter().any(|k| k.order(key).is_eq())
}
