//! Scans in key order, from the first key on or from the last.

ghost use Rattle.std.specs.Prelude.{◌≡◌, [], MatchOption};
ghost use Rattle.mv_table.specs.Scans.{with_foremost};

use mv_values::value::Key;
use std::collections::btree_map::Range;

/// The direction of a scan in key order.
#[derive(Clone, Copy)]
pub enum Direction {
    /// From the first key to the last.
    Forward,
    /// From the last key to the first.
    Backward,
}

impl Direction {
    /// Returns the entry that a scan of the range meets first, and leaves the others in the range.
    pub fn take_next<'a, T>(self, range: &mut Range<'a, Key, T>) -> Option<(&'a Key, &'a T)>
        ensures { MatchOption result (range.old ≡ []) (λ entry. range.old ≡ with_foremost self (entry.0.now, entry.1.now) range.new) }
    {
        match self {
            Direction::Forward => range.next(),
            Direction::Backward => range.next_back(),
        }
    }

    /// Returns the item that a scan of the slice meets first, and the others.
    pub fn split<'a, T>(self, items: &'a [T]) -> Option<(&'a T, &'a [T])>
        ensures { MatchOption result (items.now ≡ []) (λ split. items.now ≡ with_foremost self split.0.now split.1.now) }
    {
        match self {
            Direction::Forward => items.split_first(),
            Direction::Backward => items.split_last(),
        }
    }
}
