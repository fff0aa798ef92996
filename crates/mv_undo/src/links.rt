//! The writes to one key, from the last one back.

ghost use Rattle.std.specs.Prelude.{◌≡◌, ◌<◌, ◌≤◌, nat_lt, ℕ, List, All, IfSome, None, Some, false, length, slice_index_or};
ghost use Rattle.mv_values.specs.declared.value.Value.{Value};
ghost use Rattle.mv_undo.specs.Indexing.{GoesBack, IsLast, IsLastOn, IsLinked, IsUpTo, AreToOneKey, link_at, owned_at};
ghost use Rattle.mv_undo.specs.Owning.{before, IsInOrder};
ghost use Rattle.mv_undo.specs.Taking.{is_sought_at};

use crate::items::Items;
use mv_values::pred_ref::PredRef;

/// Where the earlier writes to the key of a write are.
#[derive(Clone, Copy)]
pub(crate) struct Link {
    /// The place of the last one.
    before: Option<usize>,
    /// The place of one of them, to skip to.
    far: Option<usize>,
    /// How many they are.
    depth: usize,
}

/// Returns the link of the write at a place.
fn link_at(links: &[Link], place: usize) -> Link
    requires { place < length links.now }
    ensures { result ≡ link_at links.now place }
{
    links[place]
}

/// Returns the place that a new write skips to, given that of the last write to its key. This is where two skips lead
/// from there, if both pass as many writes, and else that place itself. So any way back takes as many skips and steps as
/// the logarithm of the number of writes.
fn skip_from(items: &Items<'_>, links: &[Link], place: usize) -> usize
    requires linked { IsLinked items.now links.now }
    requires within { place < length items.now }
    ensures { (result ≤ place) × AreToOneKey items.now place result }
{
    let last = link_at(links, place);
    let Some(far) = last.far else {
        return place;
    };
    let middle = link_at(links, far);
    let Some(farther) = middle.far else {
        return place;
    };
    let first = link_at(links, farther);
    if last.depth.saturating_sub(middle.depth) != middle.depth.saturating_sub(first.depth) {
        return place;
    }
    farther
}

/// Returns the link of a new write, given the place of the last write to its key, if there is one.
pub(crate) fn link_to(items: &Items<'_>, links: &[Link], before: Option<usize>) -> Link
    requires linked { IsLinked items.now links.now }
    requires within { IfSome before (λ place. place < length items.now) }
    ensures before { result.before ≡ before }
    ensures far { IfSome result.far (λ far. IfSome before (λ place. (far ≤ place) × AreToOneKey items.now place far)) }
    ensures none { before ≡ None → result.far ≡ None }
{
    match before {
        Some(place) => Link {
            before,
            far: Some(skip_from(items, links, place)),
            depth: link_at(links, place).depth.saturating_add(1),
        },
        None => Link {
            before,
            far: None,
            depth: 0,
        },
    }
}

/// Returns the place of an earlier write to the key of the write at a place, if there is one, such that no record below
/// `number` wrote the key between the two. The record of the write at the place isn't below `number`.
fn back_from(items: &Items<'_>, links: &[Link], place: usize, number: usize) -> Option<usize>
    requires linked { IsLinked items.now links.now }
    requires numbers { IsInOrder items.now }
    requires within { place < length items.now }
    requires late { nat_lt (owned_at items.now place).number number ≡ false }
    ensures within { IfSome result (λ earlier. earlier < place) }
    ensures back { (t : ℕ) (key : List Value) → IsUpTo number items.now t key (Some place) → IsUpTo number items.now t key result }
{
    let link = link_at(links, place);
    if let Some(far) = link.far {
        if !items.is_before(far, number) {
            return Some(far);
        }
    }
    link.before
}

/// Returns the place of the last write to a key by a record below `number`, given that of the last write to the key, if
/// there is one. Costs the logarithm of the number of writes to the key by other records.
pub(crate) fn last_before(
    items: &Items<'_>,
    links: &[Link],
    last: Option<usize>,
    number: usize,
) -> Option<usize>
    requires linked { IsLinked items.now links.now }
    requires numbers { IsInOrder items.now }
    requires last { IfSome last (λ place. place < length items.now) }
    ensures { (t : ℕ) (key : List Value) → IsLastOn items.now t key last → IsLastOn (before number items.now) t key result }
{
    let mut last = last;
    while let Some(place) = last {
        if items.is_before(place, number) {
            return Some(place);
        }
        last = back_from(items, links, place, number);
    }
    None
}

/// Whether a predicate seeks the key of the write at a place, which is the last write to it, and a record below `number`
/// wrote the key.
pub(crate) fn is_sought(
    items: &Items<'_>,
    links: &[Link],
    place: usize,
    number: usize,
    pred: &PredRef<'_>,
) -> bool
    requires linked { IsLinked items.now links.now }
    requires numbers { IsInOrder items.now }
    requires last { IsLast items.now place }
    ensures { result ≡ is_sought_at pred.now number items.now place }
{
    let write = items.write(place);
    let table = pred.table();
    if write.table != table {
        return false;
    }
    if last_before(items, links, Some(place), number).is_none() {
        return false;
    }
    pred.admits(&write.key)
}

/// Puts the places of the last writes by records below `number` in place of those of the last writes to their keys. Where
/// no such record wrote a key, its place stays.
pub(crate) fn go_back(items: &Items<'_>, links: &[Link], order: &mut Vec<usize>, number: usize)
    requires linked { IsLinked items.now links.now }
    requires numbers { IsInOrder items.now }
    requires last { All (IsLast items.now) order.old.items }
    ensures len { length order.new.items ≡ length order.old.items }
    ensures back { (k : ℕ) → k < length order.old.items → GoesBack items.now number (slice_index_or order.old.items k 0) (slice_index_or order.new.items k 0) }
{
    for index in 0..order.len() {
        let place = order[index];
        order[index] = last_before(items, links, Some(place), number).unwrap_or(place);
    }
}
