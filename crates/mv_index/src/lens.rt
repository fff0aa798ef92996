//! The lengths of keys.

ghost use Rattle.std.specs.Prelude.{◌≡◌, Some, IfOk, IfSome, OnOk, OnErr};
ghost use Rattle.std.specs.Option.{is_some, option_copied};
ghost use Rattle.mv_index.specs.Indexing.{with_len, is_known, is_given, IsOnlyOf, NotesLen};

use mv_table::span::whole_key;
use mv_values::memory::NoMemory;
use mv_values::pred::Test;
use mv_values::value::Key;
use std::alloc::Global;
use std::collections::BTreeMap;

/// How many columns the keys of a table's rows have had.
#[derive(Clone, Copy)]
pub(crate) enum KeyLens {
    /// Each as many.
    One(usize),
    /// Not each as many.
    Several,
}

impl KeyLens {
    /// Returns the lengths with that of one more key.
    fn with(self, len: usize) -> KeyLens
        ensures { result ≡ with_len (Some self) len }
    {
        match self {
            KeyLens::One(known) => {
                if known == len {
                    KeyLens::One(known)
                } else {
                    KeyLens::Several
                }
            }
            KeyLens::Several => KeyLens::Several,
        }
    }

    /// Whether a key of this length has been there.
    fn has(self, len: usize) -> bool
        ensures { result ≡ is_known (Some self) len }
    {
        match self {
            KeyLens::One(known) => known == len,
            KeyLens::Several => true,
        }
    }

    /// Returns the key that `=` gives whole, if it does. It doesn't if the keys haven't one length.
    pub(crate) fn whole_key(self, alloc: Global, tests: &[Test]) -> Result<Option<Key>, NoMemory>
        ensures given { IfOk result (λ key. is_some key ≡ is_given (Some self) tests.now) }
        ensures only { IfOk result (λ key. IfSome key (IsOnlyOf (Some self) tests.now)) }
    {
        match self {
            KeyLens::One(len) => whole_key(alloc, tests, len),
            KeyLens::Several => Ok(None),
        }
    }
}

/// Returns the lengths with that of one more key, where some or none are known.
fn with_len(known: Option<&KeyLens>, len: usize) -> KeyLens
    ensures { result ≡ with_len (option_copied known.entry) len }
{
    match known {
        Some(known) => known.with(len),
        None => KeyLens::One(len),
    }
}

/// Whether a key of this length has been there, where some lengths or none are known.
fn is_known(known: Option<&KeyLens>, len: usize) -> bool
    ensures { result ≡ is_known (option_copied known.entry) len }
{
    match known {
        Some(known) => known.has(len),
        None => false,
    }
}

/// Notes the length of a key of a table. If memory runs out, the lengths are as before.
pub(crate) fn note_len(
    lens: &mut BTreeMap<u8, KeyLens>,
    table: u8,
    len: usize,
) -> Result<(), NoMemory>
    ensures ok { OnOk result (NotesLen table len lens.old.entries lens.new.entries) }
    ensures err { OnErr result (lens.new.entries ≡ lens.old.entries) }
{
    if is_known(lens.get(&table), len) {
        return Ok(());
    }
    let known = with_len(lens.get(&table), len);
    lens.insert(table, known)?;
    Ok(())
}
