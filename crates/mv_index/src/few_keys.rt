//! A few keys in a list.

ghost use Rattle.std.specs.Prelude.{◌≡◌, ◌<◌, ◌≤◌, [], ◌∷◌, not, length, None, Some, List, MatchResult, IfOk, OnOk, OnErr, slice_range, slice_index_or, if◌then◌else◌};
ghost use Rattle.std.specs.List.{filter};
ghost use Rattle.std.specs.Option.{is_some};
ghost use Rattle.std.specs.Ordering.{is_eq, is_le};
ghost use Rattle.mv_values.specs.declared.value.Value.{Value};
ghost use Rattle.mv_values.specs.Order.{key_order};
ghost use Rattle.mv_table.specs.Entries.{item_of, KeysRise};
ghost use Rattle.mv_table.specs.Spans.{is_past, is_within, IsForward};
ghost use Rattle.mv_index.specs.Listed.{listed, Rise, IsGapFor};

use mv_table::key_map::KeyMap;
use mv_table::span::Span;
use mv_values::copied::Copied;
use mv_values::memory::NoMemory;
use mv_values::value::Key;
use std::alloc::Global;
use std::cmp::Ordering;
use std::marker::Model;

/// Keys in ascending order, in a list whose room isn't doubled. A key is found by search. One that is put or taken out
/// moves all after it. Contracts see them as the entries of a map.
#[derive(Drop)]
pub(crate) struct FewKeys {
    keys: Vec<Key>,
}

impl Model for FewKeys {
    ghost use Rattle.mv_index.specs.Listed.{KeyList, listed, Rise};

    ghost Value = { KeyList };

    ghost view = { λ f. listed f.keys.items };

    ghost invariant = { λ f. Rise f.keys.items };
}

/// Searches for a key. Returns `Ok` with its index, or `Err` with the index at which it would be inserted.
fn place_of(keys: &[Key], key: &Key) -> Result<usize, usize>
    requires { Rise keys.now }
    ensures { MatchResult result (λ at. (at < length keys.now) × (slice_index_or keys.now at key.now ≡ key.now)) (IsGapFor keys.now key.now) }
{
    keys.binary_search_by(
        |other: &Key| -> Ordering
            ensures { result ≡ key_order other.now key.entry.now }
        { other.order(key) },
    )
}

/// Returns the keys from one place up to another.
fn part(keys: &[Key], from: usize, to: usize) -> &[Key]
    requires order { from ≤ to }
    requires within { to ≤ length keys.now }
    ensures { result.now ≡ slice_range keys.now from to }
{
    &keys[from..to]
}

/// Whether a key is below the end of a span.
fn is_before_end(span: &Span, key: &Key) -> bool
    ensures { result ≡ not (is_past span.now.high key.now) }
{
    match &span.high {
        None => true,
        Some(high) => high.order(key).is_gt(),
    }
}

/// Returns the keys that are in a span.
fn part_within<'a>(keys: &'a [Key], span: &Span) -> &'a [Key]
    requires forward { IsForward span.now }
    requires rising { Rise keys.now }
    ensures { result.now ≡ filter (is_within span.now) keys.now }
{
    let from = keys.partition_point(
        |key: &Key| -> bool
            ensures { result ≡ not (is_le (key_order span.entry.now.low key.now)) }
        { span.low.order(key).is_gt() },
    );
    let to = keys.partition_point(
        |key: &Key| -> bool
            ensures { result ≡ not (is_past span.entry.now.high key.now) }
        { is_before_end(span, key) },
    );
    part(keys, from, to)
}

/// Returns a map with copies of the keys.
fn map_of(alloc: Global, keys: &[Key]) -> Result<KeyMap<()>, NoMemory>
    ensures { IfOk result (λ map. (k : List Value) → item_of map k ≡ item_of (listed keys.now) k) }
{
    let mut map = KeyMap::new(alloc);
    for key in keys {
        map.put(key.copy(alloc)?, ())?;
    }
    Ok(map)
}

/// Makes room for one more key, if there is none. The room grows by an eighth.
fn make_room(keys: &mut Vec<Key>) -> Result<(), NoMemory>
    ensures { keys.new.items ≡ keys.old.items }
{
    if keys.len() == keys.capacity() {
        keys.reserve_exact(1 + keys.len() / 8)?;
    }
    Ok(())
}

/// Puts a key beside the others. If memory runs out, they are as before.
fn put_in(keys: &mut Vec<Key>, key: Key) -> Result<(), NoMemory>
    requires { Rise keys.old.items }
    ensures rising { Rise keys.new.items }
    ensures ok { OnOk result ((k : List Value) → item_of (listed keys.new.items) k ≡ (if is_eq (key_order key k) then Some tt else item_of (listed keys.old.items) k)) }
    ensures err { OnErr result (keys.new.items ≡ keys.old.items) }
{
    let Err(at) = place_of(keys.as_slice(), &key) else {
        return Ok(());
    };
    make_room(keys)?;
    keys.insert(at, key)?;
    Ok(())
}

/// Takes a key out, if it is there.
fn take_from(keys: &mut Vec<Key>, key: &Key)
    requires { Rise keys.old.items }
    ensures rising { Rise keys.new.items }
    ensures at { (k : List Value) → item_of (listed keys.new.items) k ≡ (if is_eq (key_order key.now k) then None else item_of (listed keys.old.items) k) }
{
    if let Ok(at) = place_of(keys.as_slice(), key) {
        keys.remove(at);
    }
}

impl FewKeys {
    /// Returns one key, with room for a second one.
    pub(crate) fn of(alloc: Global, key: Key) -> Result<FewKeys, NoMemory>
        ensures { IfOk result (λ few. few ≡ (key, tt) ∷ []) }
    {
        let mut keys = Vec::with_capacity(alloc, 2)?;
        keys.push(key)?;
        Ok(FewKeys { keys })
    }

    /// Returns the number of keys.
    pub(crate) fn len(&self) -> usize
        ensures len { result ≡ length self.now }
        ensures rising { KeysRise self.now }
    {
        self.keys.len()
    }

    /// Whether a key is there. Takes time logarithmic in the number of keys.
    pub(crate) fn contains(&self, key: &Key) -> bool
        ensures { result ≡ is_some (item_of self.now key.now) }
    {
        place_of(self.keys.as_slice(), key).is_ok()
    }

    /// Borrows the keys that are in a span, in ascending order. Takes time logarithmic in the number of keys.
    pub(crate) fn within(&self, span: &Span) -> &[Key]
        requires { IsForward span.now }
        ensures items { listed result.now ≡ filter (λ e. is_within span.now e.0) self.now }
        ensures rising { KeysRise self.now }
    {
        part_within(self.keys.as_slice(), span)
    }

    /// Returns a map with copies of the keys.
    pub(crate) fn to_map(&self, alloc: Global) -> Result<KeyMap<()>, NoMemory>
        ensures { IfOk result (λ map. (k : List Value) → item_of map k ≡ item_of self.now k) }
    {
        map_of(alloc, self.keys.as_slice())
    }

    /// Puts a key beside the others. Takes time linear in their number. If memory runs out, they are as before.
    pub(crate) fn put(&mut self, key: Key) -> Result<(), NoMemory>
        ensures ok { OnOk result ((k : List Value) → item_of self.new k ≡ (if is_eq (key_order key k) then Some tt else item_of self.old k)) }
        ensures err { OnErr result (self.new ≡ self.old) }
    {
        put_in(&mut self.keys, key)
    }

    /// Takes a key out, if it is there. Takes time linear in the number of keys, and allocates no memory.
    pub(crate) fn take(&mut self, key: &Key)
        ensures { (k : List Value) → item_of self.new k ≡ (if is_eq (key_order key.now k) then None else item_of self.old k) }
    {
        take_from(&mut self.keys, key);
    }
}
