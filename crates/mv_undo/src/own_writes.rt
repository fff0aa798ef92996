//! The writes of a call that has no log.

ghost use Rattle.std.specs.Prelude.{◌≡◌, ◌≤◌, ◌++◌, ◌∷◌, [], All, IsTrue, OnOk, OnErr, length};
ghost use Rattle.mv_undo.specs.Owning.{before};

use crate::own_index::OwnIndex;
use crate::place::Place;
use crate::undo::Undo;
use mv_values::list::List;
use mv_values::memory::NoMemory;
use mv_values::patch::Write;
use std::alloc::Global;
use std::marker::Model;

/// Writes with the numbers of their records, and an index of them.
#[derive(Drop)]
pub struct OwnWrites {
    index: OwnIndex,
    writes: List<Write>,
}

impl Model for OwnWrites {
    ghost use Rattle.std.specs.Prelude.{List as Seq};
    ghost use Rattle.mv_undo.specs.Owned.{owned_by, Owned};
    ghost use Rattle.mv_undo.specs.Indexed.{IsIndexOf};

    ghost Value = { Seq Owned };

    ghost view = { λ o. owned_by o.index.places o.writes };

    ghost invariant = { λ o. IsIndexOf o.index o.writes };
}

/// Whether no place is of a record with a higher number.
fn are_up_to(places: &[Place], number: usize) -> bool
    ensures { IsTrue result → All (λ p. p.number ≤ number) places.now }
{
    places.iter().all(|place| place.number as usize <= number)
}

impl OwnWrites {
    /// Returns an empty list of writes. Allocates nothing.
    #[tactic(auto, using(crate::proofs::Placing::empty_index))]
    pub fn new(alloc: Global) -> OwnWrites
        ensures { result ≡ [] }
    {
        OwnWrites {
            index: OwnIndex::new(alloc),
            writes: List::new(alloc),
        }
    }

    /// Returns the number of writes.
    pub fn len(&self) -> usize
        ensures { result ≡ length self.now }
    {
        self.index.places().len()
    }

    /// Whether no write is of a record with a higher number. Then `push` takes one of the record with this number.
    pub fn takes(&self, number: usize) -> bool
        ensures { IsTrue result → All (λ o. o.number ≤ number) self.now }
    {
        are_up_to(self.index.places(), number)
    }

    /// Appends a write. `number` may not be below that of the last write. Fails if memory runs out; nothing is then
    /// added. Costs what `OwnIndex::push` costs.
    pub fn push(&mut self, number: usize, write: Write) -> Result<(), NoMemory>
        requires { All (λ o. o.number ≤ number) self.old }
        ensures ok { OnOk result (self.new ≡ self.old ++ record { number = number; write = write } ∷ []) }
        ensures err { OnErr result (self.new ≡ self.old) }
    {
        let at = self.writes.len();
        if number > 4_294_967_295 || at > 4_294_967_295 {
            return Err(NoMemory);
        }
        self.writes.push(write)?;
        let writes = self.writes.as_slice();
        match self.index.push(number as u32, at as u32, writes) {
            Ok(()) => Ok(()),
            Err(error) => {
                self.writes.truncate(at);
                Err(error)
            }
        }
    }

    /// Removes the writes of the record with this number and of later ones. Allocates nothing. The room of the writes is
    /// kept until all are dropped.
    pub fn drop_from(&mut self, number: usize)
        ensures { self.new ≡ before number self.old }
    {
        self.index.drop_from(number, self.writes.as_slice());
    }

    /// Lends the writes.
    pub fn undo(&self) -> Undo<'_>
        ensures { result ≡ self.now }
    {
        Undo::of(&self.index, self.writes.as_slice())
    }
}
