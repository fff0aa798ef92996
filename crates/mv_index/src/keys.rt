//! The keys of the rows that have one value.

ghost use Rattle.std.specs.Prelude.{◌≡◌, ◌∷◌, [], length, None, Some, MatchOption, OnOk, OnErr, List, if◌then◌else◌};
ghost use Rattle.std.specs.List.{filter};
ghost use Rattle.std.specs.Option.{is_some};
ghost use Rattle.std.specs.Ordering.{is_eq};
ghost use Rattle.mv_values.specs.declared.value.Value.{Value};
ghost use Rattle.mv_values.specs.Order.{key_order};
ghost use Rattle.mv_table.specs.Entries.{item_of, KeysRise};
ghost use Rattle.mv_table.specs.Scans.{with_foremost};
ghost use Rattle.mv_table.specs.Spans.{is_within, IsForward};
ghost use Rattle.mv_index.specs.Forms.{held, lent, several, left};

use crate::few_keys::FewKeys;
use mv_table::key_map::KeyMap;
use mv_table::scan::Direction;
use mv_table::span::Span;
use mv_values::copied::Copied;
use mv_values::memory::NoMemory;
use mv_values::value::Key;
use std::alloc::Global;
use std::collections::btree_map::Range;
use std::marker::Model;

/// The most keys that stand in a list. More stand in a map.
const MOST: usize = 32;

/// No key, one key in place, a list of a few keys, or a map of keys.
#[derive(Drop)]
enum Form {
    None,
    One(Key),
    Few(FewKeys),
    Many(KeyMap<()>),
}

/// Keys of rows, in ascending order. One key takes no memory beside its own, and up to 32 little more than theirs.
/// Contracts see them as the entries of a map.
pub struct Keys {
    form: Form,
}

impl Drop for Keys {
    /// Drops what it holds. A drop of its own is one step for who drops keys; a derived one is a step for each form.
    fn drop(self) {
        let Keys { form: _ } = self;
    }
}

impl Model for Keys {
    ghost use Rattle.mv_index.specs.Forms.{KeyList, held};

    ghost Value = { KeyList };

    ghost view = { λ k. held k.form };
}

/// Keys that are lent.
#[derive(Clone, Copy)]
pub(crate) enum LentKeys<'a> {
    None,
    One(&'a Key),
    Several(Several<'a>),
}

/// Keys that are lent, of which there may be several.
#[derive(Clone, Copy)]
pub(crate) enum Several<'a> {
    Few(&'a FewKeys),
    Many(&'a KeyMap<()>),
}

/// The keys that a scan hasn't met yet, in ascending order.
#[derive(Drop)]
pub(crate) enum KeysLeft<'a> {
    Few(&'a [Key]),
    Many(Range<'a, Key, ()>),
}

impl<'a> Several<'a> {
    /// Returns the keys that are in a span. Takes time logarithmic in their number.
    pub(crate) fn within(self, span: &Span) -> KeysLeft<'a>
        requires { IsForward span.now }
        ensures items { left result ≡ filter (λ e. is_within span.now e.0) (several self.entry) }
        ensures rising { KeysRise (several self.entry) }
    {
        match self {
            Several::Few(keys) => KeysLeft::Few(keys.within(span)),
            Several::Many(keys) => KeysLeft::Many(keys.range(span)),
        }
    }
}

impl<'a> KeysLeft<'a> {
    /// Returns the key that a scan meets next, and leaves the others.
    pub(crate) fn take_next(&mut self, direction: Direction) -> Option<&'a Key>
        ensures { MatchOption result (left self.old ≡ []) (λ key. left self.old ≡ with_foremost direction (key.now, tt) (left self.new)) }
    {
        match self {
            KeysLeft::Few(keys) => {
                let (key, others) = direction.split(*keys)?;
                *keys = others;
                Some(key)
            }
            KeysLeft::Many(range) => {
                let (key, _) = direction.take_next(range)?;
                Some(key)
            }
        }
    }
}

/// Whether a key can stand in a list beside others, or stands there.
fn has_room(keys: &FewKeys, key: &Key) -> bool {
    keys.len() < MOST || keys.contains(key)
}

/// Puts a key beside others. If memory runs out, they are as before.
fn put_key(form: &mut Form, alloc: Global, key: Key) -> Result<(), NoMemory>
    ensures ok { OnOk result ((k : List Value) → item_of (held form.new) k ≡ (if is_eq (key_order key k) then Some tt else item_of (held form.old) k)) }
    ensures err { OnErr result (held form.new ≡ held form.old) }
{
    match form {
        Form::None => {
            *form = Form::One(key);
            Ok(())
        }
        Form::One(only) if only.order(&key).is_eq() => Ok(()),
        Form::One(only) => {
            let mut keys = FewKeys::of(alloc, only.copy(alloc)?)?;
            keys.put(key)?;
            *form = Form::Few(keys);
            Ok(())
        }
        Form::Few(keys) if has_room(keys, &key) => keys.put(key),
        Form::Few(keys) => {
            let mut map = keys.to_map(alloc)?;
            map.put(key, ())?;
            *form = Form::Many(map);
            Ok(())
        }
        Form::Many(keys) => {
            keys.put(key, ())?;
            Ok(())
        }
    }
}

/// Takes a key out, if it is there.
fn take_key(form: &mut Form, key: &Key)
    ensures { (k : List Value) → item_of (held form.new) k ≡ (if is_eq (key_order key.now k) then None else item_of (held form.old) k) }
{
    match form {
        Form::None => {}
        Form::One(only) => {
            if only.order(key).is_eq() {
                *form = Form::None;
            }
        }
        Form::Few(keys) => keys.take(key),
        Form::Many(keys) => {
            keys.take(key);
        }
    }
}

impl Keys {
    /// Returns no keys. It allocates nothing.
    pub(crate) fn new() -> Keys
        ensures { result ≡ [] }
    {
        Keys { form: Form::None }
    }

    /// Returns one key. It allocates nothing.
    pub(crate) fn of(key: Key) -> Keys
        ensures { result ≡ (key, tt) ∷ [] }
    {
        Keys {
            form: Form::One(key),
        }
    }

    /// Returns the number of keys.
    pub fn len(&self) -> usize
        ensures len { result ≡ length self.now }
        ensures rising { KeysRise self.now }
    {
        match &self.form {
            Form::None => 0,
            Form::One(_) => 1,
            Form::Few(keys) => keys.len(),
            Form::Many(keys) => keys.len(),
        }
    }

    /// Whether a key is there. Takes time logarithmic in the number of keys.
    pub fn contains(&self, key: &Key) -> bool
        ensures { result ≡ is_some (item_of self.now key.now) }
    {
        match &self.form {
            Form::None => false,
            Form::One(only) => only.order(key).is_eq(),
            Form::Few(keys) => keys.contains(key),
            Form::Many(keys) => keys.get(key).is_some(),
        }
    }

    /// Lends the keys.
    pub(crate) fn lend(&self) -> LentKeys<'_>
        ensures { lent result ≡ self.now }
    {
        match &self.form {
            Form::None => LentKeys::None,
            Form::One(key) => LentKeys::One(key),
            Form::Few(keys) => LentKeys::Several(Several::Few(keys)),
            Form::Many(keys) => LentKeys::Several(Several::Many(keys)),
        }
    }

    /// Puts a key beside the others. Takes time logarithmic in their number. If memory runs out, they are as before.
    pub(crate) fn put(&mut self, alloc: Global, key: Key) -> Result<(), NoMemory>
        ensures ok { OnOk result ((k : List Value) → item_of self.new k ≡ (if is_eq (key_order key k) then Some tt else item_of self.old k)) }
        ensures err { OnErr result (self.new ≡ self.old) }
    {
        put_key(&mut self.form, alloc, key)
    }

    /// Takes a key out, if it is there. Takes time logarithmic in the number of keys, and allocates no memory.
    pub(crate) fn take(&mut self, key: &Key)
        ensures { (k : List Value) → item_of self.new k ≡ (if is_eq (key_order key.now k) then None else item_of self.old k) }
    {
        take_key(&mut self.form, key);
    }
}
