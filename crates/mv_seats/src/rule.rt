//! The rule over the board, and its steps.

ghost use Rattle.mv_seats.specs.Rule.{Ruled, first, copied, handing_out, of_shard, both, nobody, counting, appending, loading, raising};

use crate::script::BoardScript;
use crate::view::View;
use atomic_table::{Join, Play, Split, TableRule};
use std::marker::{Brand, PhantomData};

/// The invariant of the board between any two steps.
pub struct Law;

impl TableRule<u8, View, BoardScript> for Law {
    ghost holds = { Ruled };

    ghost first = { first };
}

/// Names the call that is appended, or the shard whose role is handed out.
pub trait Numbered {
    ghost use Rattle.std.specs.Prelude.{ℕ};

    ghost number: { ℕ };
}

impl Numbered for Brand {
    ghost number = { 0 };
}

/// Splits off a plain copy.
pub struct Copying;

impl Split<View> for Copying {
    ghost left = { λ v. v };

    ghost right = { copied };
}

/// Splits off a seat that has a shard's role.
pub struct Handing<Q: Numbered> {
    of: PhantomData<Q>,
}

impl<Q: Numbered> Split<View> for Handing<Q> {
    ghost left = { handing_out Q.number };

    ghost right = { of_shard Q.number };
}

/// Joins a plain seat.
pub struct Meeting;

impl Join<View> for Meeting {
    ghost both = { both };

    ghost spent = { nobody };
}

/// Loads the count.
pub struct Counting;

impl Play<u8, View> for Counting {
    ghost then = { counting };
}

/// Appends a call.
pub struct Appending<C: Numbered> {
    of: PhantomData<C>,
}

impl<C: Numbered> Play<u8, View> for Appending<C> {
    ghost then = { appending C.number };
}

/// Loads a mark.
pub struct Loading;

impl Play<u8, View> for Loading {
    ghost then = { loading };
}

/// Raises a mark.
pub struct Raising;

impl Play<u8, View> for Raising {
    ghost then = { raising };
}
