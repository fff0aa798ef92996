//! Sets of keys.

ghost use Rattle.std.specs.Prelude.{◌≡◌, false, Bool, List};
ghost use Rattle.mv_values.specs.declared.value.Value.{Value};

use mv_values::value::Key;

/// A set of keys of one table.
pub trait KeySet {
    /// Whether a key is in the set.
    ghost has: { Self → List Value → Bool };

    /// Whether the key is in the set.
    fn contains(&self, key: &Key) -> bool
        ensures { result ≡ has self.now key.now };
}

/// The set without keys.
#[derive(Clone, Copy)]
pub struct NoKeys;

impl KeySet for NoKeys {
    ghost has = { λ _ key. false };

    fn contains(&self, _key: &Key) -> bool {
        false
    }
}
