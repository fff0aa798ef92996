//! The writes of a running call, in order.

ghost use Rattle.std.specs.Prelude.{◌≡◌, ◌<◌, List as Seq, length, nat_lt};
ghost use Rattle.mv_values.specs.declared.patch.Write.{Write};
ghost use Rattle.mv_record.specs.Writes.{is_on};
ghost use Rattle.mv_undo.specs.Owned.{owned_by, place_in, write_in, AreWithin};
ghost use Rattle.mv_undo.specs.Indexing.{owned_at};

use crate::place::Place;
use mv_values::patch::Write;
use mv_values::value::Key;
use std::marker::Model;

/// Writes of a running call, in order. Contracts see each write with the number of its record.
#[derive(Drop)]
pub(crate) struct Items<'a> {
    places: &'a [Place],
    writes: &'a [Write],
}

impl<'a> Model for Items<'a> {
    ghost use Rattle.std.specs.Prelude.{List as Seq, length};
    ghost use Rattle.mv_undo.specs.Owned.{owned_by, AreWithin, Owned};

    ghost Value = { Seq Owned };

    ghost view = { λ i. owned_by i.places.now i.writes.now };

    ghost invariant = { λ i. AreWithin (length i.writes.now) i.places.now };
}

/// Returns the write at a place of a log.
pub(crate) fn write_at(writes: &[Write], at: usize) -> &Write
    requires { at < length writes.now }
    ensures { result.now ≡ write_in writes.now at }
{
    &writes[at]
}

/// Returns one of these places.
fn place_at(places: &[Place], at: usize) -> Place
    requires { at < length places.now }
    ensures { result ≡ place_in places.now at }
{
    places[at]
}

/// Returns one of the writes at these places of a log.
fn write_of<'a>(places: &[Place], writes: &'a [Write], place: usize) -> &'a Write
    requires place { place < length places.now }
    requires within { AreWithin (length writes.now) places.now }
    ensures { result.now ≡ (owned_at (owned_by places.now writes.now) place).write }
{
    write_at(writes, place_at(places, place).at as usize)
}

/// Returns the number of the record of one of these writes.
fn number_of(places: &[Place], place: usize) -> u32
    requires { place < length places.now }
    ensures { (ws : Seq Write) → (owned_at (owned_by places.now ws) place).number ≡ result }
{
    place_at(places, place).number
}

impl<'a> Items<'a> {
    /// Returns the writes at these places of a log.
    pub(crate) fn of(places: &'a [Place], writes: &'a [Write]) -> Items<'a>
        requires { AreWithin (length writes.now) places.now }
        ensures { result ≡ owned_by places.now writes.now }
    {
        Items { places, writes }
    }

    /// Returns the number of writes.
    pub(crate) fn len(&self) -> usize
        ensures { result ≡ length self.now }
    {
        self.places.len()
    }

    /// Returns the write at a place.
    pub(crate) fn write(&self, place: usize) -> &'a Write
        requires { place < length self.now }
        ensures { result.now ≡ (owned_at self.now place).write }
    {
        write_of(self.places, self.writes, place)
    }

    /// Whether a record below `number` made the write at a place.
    pub(crate) fn is_before(&self, place: usize, number: usize) -> bool
        requires { place < length self.now }
        ensures { result ≡ nat_lt (owned_at self.now place).number number }
    {
        (number_of(self.places, place) as usize) < number
    }
}

/// Whether the write is to this key of this table.
pub(crate) fn is_on(write: &Write, table: u8, key: &Key) -> bool
    ensures { result ≡ is_on table key.now write.now }
{
    write.table == table && write.key.order(key).is_eq()
}
