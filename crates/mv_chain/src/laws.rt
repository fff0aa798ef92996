//! Laws of versions that callers can cite.

ghost use Rattle.std.specs.Prelude.{◌≡◌, ◌<◌, ◌≤◌, ℕ, List, Option, None};
ghost use Rattle.mv_values.specs.declared.value.Value.{Value};
ghost use Rattle.mv_values.specs.declared.patch.Patch.{Patch};
ghost use Rattle.mv_values.specs.Patching.{patched};
ghost use Rattle.mv_chain.specs.declared.pending.Pending.{Pending};
ghost use Rattle.mv_chain.specs.Versions.{Versions, row_at, newest, own_of, patched_by_own, without, with_own, stamped, IsAboveAll};

/// A call's own patches are applied one after another. Adding or dropping a patch of one call changes no other call's
/// patch.
pub fn own_patches_are_done_in_turn()
    ensures composes { (call : ℕ) (patch : Patch) (own : List Pending) (row : Option (List Value)) → patched_by_own (own_of call (with_own call patch own)) row ≡ patched patch (patched_by_own (own_of call own) row) }
    ensures others_stay { (call other : ℕ) (patch : Patch) (own : List Pending) → (call ≡ other → ⊥) → own_of other (with_own call patch own) ≡ own_of other own }
    ensures is_dropped { (call : ℕ) (own : List Pending) → own_of call (without call own) ≡ None }
    ensures others_are_kept { (call other : ℕ) (own : List Pending) → (call ≡ other → ⊥) → own_of other (without call own) ≡ own_of other own }
{}

/// After a stamp as commit n, reads before n return what they did. Reads from n on return the newest row with the
/// call's patch applied.
pub fn stamps_are_read_from_their_number_on()
    ensures before { (call n m : ℕ) (v : Versions) → m < n → row_at (stamped call n v) m ≡ row_at v m }
    ensures after { (call n m : ℕ) (v : Versions) → IsAboveAll n v → n ≤ m → row_at (stamped call n v) m ≡ patched_by_own (own_of call v.own) (newest v) }
{}
