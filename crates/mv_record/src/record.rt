//! The records of a run of a procedure: one for each executed statement.

ghost use Rattle.std.specs.Prelude.{◌≡◌, IfOk};

use mv_values::calls::End;
use mv_values::copied::Copied;
use mv_values::list::List;
use mv_values::memory::NoMemory;
use mv_values::patch::Write;
use mv_values::pred::Pred;
use mv_values::txt::Txt;
use mv_values::value::{Row, Value};
use std::alloc::Global;

/// The position of a record. `statement` is the number of its statement in the text of the procedure, from 1. `turns`
/// has the iteration of each enclosing FOR, outermost first, also from 1.
#[derive(Drop)]
pub struct Spot {
    pub statement: u16,
    pub turns: List<usize>,
}

/// A variable that a statement reads. `definer` is the number of the record that last set it, or `None` if it still has
/// its initial value.
#[derive(Clone, Copy)]
pub struct Read {
    pub slot: u16,
    pub definer: Option<usize>,
}

/// A variable and its value.
#[derive(Drop)]
pub struct Slot {
    pub slot: u16,
    pub value: Value,
}

/// An executed statement. The records of a run are numbered from 0 in the order of execution.
#[derive(Drop)]
pub struct Record {
    pub spot: Spot,
    /// The number of the record of the innermost enclosing IF or FOR.
    pub parent: Option<usize>,
    /// The variables in its own expressions, each once, in the order of first occurrence. Parameters are not included.
    pub reads: List<Read>,
    /// The predicates it queried tables with. Empty if it looked at no rows.
    pub preds: List<Pred>,
    /// The variables it set: its targets in the order of the text, then `:found`.
    pub sets: List<Slot>,
    /// The rows that a FOR iterates over.
    pub rows: List<Row>,
    /// The writes it made, in key order.
    pub writes: List<Write>,
    /// The line that a PRINT added.
    pub line: Option<Txt>,
    /// The reason, if the call ended here.
    pub end: Option<End>,
}

impl Copied for Spot {
    fn copy(&self, alloc: Global) -> Result<Spot, NoMemory> {
        Ok(Spot {
            statement: self.statement,
            turns: self.turns.copy(alloc)?,
        })
    }
}

impl Copied for Read {
    fn copy(&self, _alloc: Global) -> Result<Read, NoMemory> {
        Ok(*self)
    }
}

impl Copied for Slot {
    fn copy(&self, alloc: Global) -> Result<Slot, NoMemory> {
        Ok(Slot {
            slot: self.slot,
            value: self.value.copy(alloc)?,
        })
    }
}

/// Returns a copy of the item, if any.
fn copy_some<T: Copied>(item: &Option<T>, alloc: Global) -> Result<Option<T>, NoMemory>
    ensures { IfOk result (λ it. it ≡ item.now) }
{
    match item {
        None => Ok(None),
        Some(item) => Ok(Some(item.copy(alloc)?)),
    }
}

impl Copied for Record {
    fn copy(&self, alloc: Global) -> Result<Record, NoMemory> {
        let spot = self.spot.copy(alloc)?;
        let reads = self.reads.copy(alloc)?;
        let preds = self.preds.copy(alloc)?;
        let sets = self.sets.copy(alloc)?;
        let rows = self.rows.copy(alloc)?;
        let writes = self.writes.copy(alloc)?;
        let line = copy_some(&self.line, alloc)?;
        let end = copy_some(&self.end, alloc)?;
        Ok(Record {
            spot,
            parent: self.parent,
            reads,
            preds,
            sets,
            rows,
            writes,
            line,
            end,
        })
    }
}
