//! The keys of own writes, taken from either end.

ghost use Rattle.std.specs.Prelude.{◌≡◌, [], IfSome, MatchOption};
ghost use Rattle.mv_table.specs.Scans.{with_foremost};
ghost use Rattle.mv_undo.specs.Taking.{sought_keys, HasAdmitted};
ghost use Rattle.mv_undo.specs.Indexing.{AreLast, IsLinked};
ghost use Rattle.mv_undo.specs.Owning.{earlier, AreSought, IsInOrder};

use crate::items::Items;
use crate::links::{Link, is_sought};
use mv_table::scan::Direction;
use mv_values::pred_ref::PredRef;
use mv_values::value::Key;
use std::marker::Model;

/// Returns the key that a scan of these places meets first of those that a predicate seeks, and the places that it meets
/// later.
fn first_sought<'a>(
    items: &Items<'a>,
    links: &[Link],
    places: &'a [usize],
    number: usize,
    pred: &PredRef<'_>,
    direction: Direction,
) -> Option<(&'a Key, &'a [usize])>
    requires linked { IsLinked items.now links.now }
    requires numbers { IsInOrder items.now }
    requires last { AreLast items.now places.now }
    ensures last { IfSome result (λ found. AreLast items.now found.1.now) }
    ensures found { MatchOption result (sought_keys pred.now number items.now places.now ≡ []) (λ found. sought_keys pred.now number items.now places.now ≡ with_foremost direction found.0.now (sought_keys pred.now number items.now found.1.now)) }
{
    let mut left = places;
    while let Some((place, later)) = direction.split(left) {
        if is_sought(items, links, *place, number, pred) {
            return Some((&items.write(*place).key, later));
        }
        left = later;
    }
    None
}

/// The keys that a predicate seeks among own writes, each once, in order. They are taken from either end.
#[derive(Drop)]
pub struct SoughtKeys<'a> {
    items: Items<'a>,
    links: &'a [Link],
    places: &'a [usize],
    number: usize,
    pred: &'a PredRef<'a>,
}

impl<'a> Model for SoughtKeys<'a> {
    ghost use Rattle.std.specs.Prelude.{List as Seq};
    ghost use Rattle.mv_values.specs.declared.value.Value.{Value as Column};
    ghost use Rattle.mv_undo.specs.Taking.{sought_keys};
    ghost use Rattle.mv_undo.specs.Indexing.{AreLast, IsLinked};
    ghost use Rattle.mv_undo.specs.Owning.{IsInOrder};

    ghost Value = { Seq (Seq Column) };

    ghost view = { λ s. sought_keys s.pred.now s.number s.items s.places.now };

    ghost invariant = { λ s. IsLinked s.items s.links.now × IsInOrder s.items × AreLast s.items s.places.now };
}

impl<'a> SoughtKeys<'a> {
    /// Returns the keys at these places that the predicate seeks.
    pub(crate) fn new(
        items: Items<'a>,
        links: &'a [Link],
        places: &'a [usize],
        number: usize,
        pred: &'a PredRef<'a>,
    ) -> SoughtKeys<'a>
        requires linked { IsLinked items links.now }
        requires numbers { IsInOrder items }
        requires last { AreLast items places.now }
        requires admitted { HasAdmitted pred.now items places.now }
        ensures { AreSought pred.now (earlier number items.entry) result }
    {
        SoughtKeys {
            items,
            links,
            places,
            number,
            pred,
        }
    }

    /// Takes the key that a scan in this direction meets first. Costs a step for each key that it passes over, and the
    /// logarithm of the number of writes to it.
    pub fn take_next(&mut self, direction: Direction) -> Option<&'a Key>
        ensures { MatchOption result (self.old ≡ []) (λ key. self.old ≡ with_foremost direction key.now self.new) }
    {
        let found = first_sought(
            &self.items,
            self.links,
            self.places,
            self.number,
            self.pred,
            direction,
        );
        match found {
            Some((key, later)) => {
                self.places = later;
                Some(key)
            }
            None => None,
        }
    }
}
