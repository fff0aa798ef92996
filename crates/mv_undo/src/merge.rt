//! Rows put into other rows, in key order.

ghost use Rattle.std.specs.Prelude.{◌≡◌, ◌++◌, ◌∷◌, [], List, Option, All, IfOk, IfSome, IfNone, OnOk, false, true};
ghost use Rattle.std.specs.Ordering.{is_lt, is_le};
ghost use Rattle.std.specs.declared.cmp.Ordering.TheVariants.{Less};
ghost use Rattle.mv_values.specs.declared.value.Value.{Value};
ghost use Rattle.mv_values.specs.Keys.{IsRising, IsBelow};
ghost use Rattle.mv_values.specs.Order.{key_order};
ghost use Rattle.mv_values.specs.Patching.{placed, standing};
ghost use Rattle.mv_undo.specs.Overlaying.{begins_up_to};

use mv_values::copied::Copied;
use mv_values::memory::NoMemory;
use mv_values::rows::{Keyed, Rows};
use mv_values::value::{Key, Row};
use std::alloc::Global;
use std::collections::VecDeque;

/// Whether the row's key is below this one.
fn is_below(item: &Keyed, key: &Key) -> bool
    ensures { result ≡ is_lt (key_order item.now.key key.now) }
{
    item.key.order(key).is_lt()
}

/// Rows in key order, into which others are put from the least key to the greatest. `done` has those up to the last key
/// that was put, `ahead` those after it.
#[derive(Drop)]
pub(crate) struct Merge {
    done: Rows,
    ahead: VecDeque<Keyed>,
}

impl Merge {
    /// Returns the rows, all of them ahead. Allocates nothing.
    pub(crate) fn of(alloc: Global, rows: Rows) -> Merge
        ensures done { result.done ≡ [] }
        ensures ahead { result.ahead.items ≡ rows }
        ensures rising { IsRising rows }
    {
        Merge {
            done: Rows::new(alloc),
            ahead: VecDeque::from(rows.into_items()),
        }
    }

    /// Whether the key of the first row ahead is at most this one.
    fn begins_up_to(&self, key: &Key) -> bool
        ensures { result ≡ begins_up_to key.now self.now.ahead.items }
    {
        match self.ahead.front() {
            Some(item) => item.key.order(key).is_le(),
            None => false,
        }
    }

    /// Takes the first row ahead, if its key is at most this one.
    fn take_up_to(&mut self, key: &Key) -> Option<Keyed>
        ensures done { self.new.done ≡ self.old.done }
        ensures taken { IfSome result (λ item. (is_le (key_order item.key key.now) ≡ true) × (self.old.ahead.items ≡ item ∷ self.new.ahead.items)) }
        ensures rest { IfNone result ((self.new.ahead.items ≡ self.old.ahead.items) × (begins_up_to key.now self.old.ahead.items ≡ false)) }
    {
        if !self.begins_up_to(key) {
            return None;
        }
        self.ahead.pop_front()
    }

    /// Moves the rows below a key from `ahead` to `done`, and drops the row with the key.
    fn pass(&mut self, key: &Key) -> Result<(), NoMemory>
        requires rising { IsRising (self.old.done ++ self.old.ahead.items) }
        requires below { All (IsBelow key.now) self.old.done }
        ensures rows { OnOk result ((row : Option (List Value)) → placed key.now row (self.old.done ++ self.old.ahead.items) ≡ self.new.done ++ standing key.now row ++ self.new.ahead.items) }
        ensures below { OnOk result (All (IsBelow key.now) self.new.done) }
    {
        while let Some(item) = self.take_up_to(key) {
            if is_below(&item, key) {
                self.done.push(item)?;
            }
        }
        Ok(())
    }

    /// Stores a row under a key, or removes the row with the key if `row` is `None`. All rows done must be below the
    /// key. Fails if memory runs out. Costs the number of rows that it passes.
    pub(crate) fn put(&mut self, alloc: Global, key: &Key, row: Option<Row>) -> Result<(), NoMemory>
        requires rising { IsRising (self.old.done ++ self.old.ahead.items) }
        requires below { All (IsBelow key.now) self.old.done }
        ensures rows { OnOk result (self.new.done ++ self.new.ahead.items ≡ placed key.now row (self.old.done ++ self.old.ahead.items)) }
        ensures below { OnOk result ((later : List Value) → key_order key.now later ≡ Less → All (IsBelow later) self.new.done) }
    {
        self.pass(key)?;
        if let Some(row) = row {
            let key = key.copy(alloc)?;
            self.done.push(Keyed { key, row })?;
        }
        Ok(())
    }

    /// Returns all rows. Fails if memory runs out. Costs the number of rows ahead.
    pub(crate) fn into_rows(self) -> Result<Rows, NoMemory>
        requires { IsRising (self.done ++ self.ahead.items) }
        ensures { IfOk result (λ rows. rows ≡ self.done ++ self.ahead.items) }
    {
        let Merge { done, ahead } = self;
        let mut rows = done;
        for item in ahead {
            rows.push(item)?;
        }
        Ok(rows)
    }
}
