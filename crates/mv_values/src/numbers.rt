//! Up to four numbers in place.

ghost use Rattle.std.specs.Prelude.{◌≡◌, ◌<◌, ◌≤◌, ◌∷◌, ◌++◌, [], length, map, take, IfOk};
ghost use Rattle.std.specs.Cmp.Lexicographic.{slice_cmp};
ghost use Rattle.std.specs.Ordering.{int_cmp};
ghost use Rattle.mv_values.specs.declared.value.Value.TheVariants.{Int};
ghost use Rattle.mv_values.specs.Room.{HasNoMore};

use crate::list::List;
use crate::memory::NoMemory;
use crate::value::Value;
use std::alloc::Global;
use std::cmp::Ordering;
use std::marker::Model;

/// How many numbers there is room for.
pub(crate) const ROOM: usize = 4;

/// Up to four numbers, in place. Those that aren't there are 0, so two of one length are compared without a look at it.
/// Contracts see the numbers alone.
#[derive(Drop)]
pub(crate) struct Numbers {
    len: usize,
    items: [i64; 4],
}

impl Model for Numbers {
    ghost use Rattle.std.specs.Prelude.{ℤ, List as Seq, take, ◌≤◌};
    ghost use Rattle.mv_values.specs.Room.{HasNoMore};

    ghost Value = { Seq ℤ };

    ghost view = { λ n. take n.len n.items };

    ghost invariant = { λ n. (n.len ≤ 4) × HasNoMore n.len n.items };
}

impl Numbers {
    /// Returns no numbers.
    pub(crate) fn new() -> Numbers
        ensures { result ≡ [] }
    {
        Numbers {
            len: 0,
            items: [0; 4],
        }
    }

    /// Returns how many there are.
    pub(crate) fn len(&self) -> usize
        ensures { result ≡ length self.now }
    {
        self.as_slice().len()
    }

    /// Appends a number. There must be room for it.
    #[tactic(auto, using(crate::proofs::Placing::next_placed, crate::proofs::Placing::no_more_set))]
    pub(crate) fn push(&mut self, number: i64)
        requires { length self.old < 4 }
        ensures { self.new ≡ self.old ++ number ∷ [] }
    {
        self.items[self.len] = number;
        self.len += 1;
    }

    /// Copies the numbers.
    pub(crate) fn copy(&self) -> Numbers
        ensures { result ≡ self.now }
    {
        Numbers {
            len: self.len,
            items: self.items,
        }
    }

    /// Compares them with others by the first in which they differ. If there is none, fewer numbers come first.
    #[inline(always)]
    pub(crate) fn order(&self, other: &Numbers) -> Ordering
        ensures { result ≡ slice_cmp int_cmp self.now other.now }
    {
        compare_fronts(
            self.len,
            self.items.as_slice(),
            other.len,
            other.items.as_slice(),
        )
    }

    /// Borrows the numbers.
    pub(crate) fn as_slice(&self) -> &[i64]
        ensures { result.now ≡ self.now }
    {
        &self.items[..self.len]
    }
}

/// Compares numbers of which there may be more on one side. It stays out of its callers, which rarely need it.
#[inline(never)]
fn compare_lengths(a: &[i64], b: &[i64]) -> Ordering
    ensures { result ≡ slice_cmp int_cmp a.now b.now }
{
    a.cmp(b)
}

/// Compares the first numbers of two lists, which have none after them.
#[inline(always)]
fn compare_fronts(len: usize, items: &[i64], other_len: usize, other_items: &[i64]) -> Ordering
    requires within { len ≤ length items.now }
    requires other_within { other_len ≤ length other_items.now }
    requires last { HasNoMore len items.now }
    requires other_last { HasNoMore other_len other_items.now }
    ensures { result ≡ slice_cmp int_cmp (take len items.now) (take other_len other_items.now) }
{
    if len != other_len {
        return compare_lengths(&items[..len], &other_items[..other_len]);
    }
    items.cmp(other_items)
}

/// Returns the numbers as a list of values, with room for one more.
pub(crate) fn values_of(alloc: Global, numbers: &[i64]) -> Result<List<Value>, NoMemory>
    ensures { IfOk result (λ values. values ≡ map Int numbers.now) }
{
    let mut values = List::with_room(alloc, ROOM + 1)?;
    for number in numbers {
        values.push(Value::Int(*number))?;
    }
    Ok(values)
}
