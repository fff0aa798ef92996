//! An index of the own writes by table and key.

ghost use Rattle.std.specs.Prelude.{◌≡◌, ◌<◌, ◌≤◌, ◌∷◌, [], true, pos, List, IfSome, OnOk, OnErr, length, slice_range};
ghost use Rattle.mv_values.specs.declared.value.Value.{Value};
ghost use Rattle.mv_values.specs.declared.value.Value.TheVariants.{Int};
ghost use Rattle.mv_values.specs.Order.{value_order, key_order};
ghost use Rattle.mv_table.specs.Spans.{is_within, IsForward};
ghost use Rattle.mv_undo.specs.Indexing.{AreLast, HasNone, IsIndexed, IsCut, IsFound, IsLastOn, is_below, is_up_to, end_in, key_at, owned_on, renewed};

use crate::items::{Items, is_on};
use mv_table::span::Span;
use mv_values::memory::NoMemory;
use mv_values::value::{Key, Value};
use std::cmp::Ordering;

/// Compares a table with another.
fn order_of_tables(table: u8, other: u16) -> Ordering
    ensures { result ≡ value_order (Int (pos table)) (Int (pos other)) }
{
    Value::Int(table as i64).order(&Value::Int(other as i64))
}

/// Compares a key of a table with a key of another.
fn compare(table: u8, key: &Key, other: u16, other_key: &Key) -> Ordering
    ensures { result ≡ key_order (Int (pos table) ∷ key.now) (Int (pos other) ∷ other_key.now) }
{
    let order = order_of_tables(table, other);
    if order.is_ne() {
        return order;
    }
    key.order(other_key)
}

/// Compares the key of the write at a place with a key of a table.
#[tactic(auto, using(crate::proofs::Placing::key_past))]
fn compare_at(items: &Items<'_>, place: usize, table: u16, key: &Key) -> Ordering
    ensures { result ≡ key_order (key_at items.now place) (Int (pos table) ∷ key.now) }
{
    if place < items.len() {
        let write = items.write(place);
        return compare(write.table, &write.key, table, key);
    }
    let empty = Key::new();
    compare(0, &empty, table, key)
}

/// Returns the places from index `from` up to `to`.
fn part(order: &[usize], from: usize, to: usize) -> &[usize]
    requires order { from ≤ to }
    requires within { to ≤ length order.now }
    ensures { result.now ≡ slice_range order.now from to }
{
    &order[from..to]
}

/// Counts the places whose writes are below a key of a table. Costs the logarithm of the number of places.
pub(crate) fn count_below(items: &Items<'_>, places: &[usize], table: u16, key: &Key) -> usize
    requires { AreLast items.now places.now }
    ensures within { result ≤ length places.now }
    ensures below { IsCut (is_below items.now (Int (pos table) ∷ key.now)) places.now result }
{
    places.partition_point(
        |place: &usize| -> bool
            ensures { result ≡ is_below items.entry.now (Int (pos table) ∷ key.entry.now) place.now }
        { compare_at(items, *place, table, key).is_lt() },
    )
}

/// Counts the places whose writes are up to and including a key of a table. Costs the logarithm of the number of
/// places.
pub(crate) fn count_up_to(items: &Items<'_>, places: &[usize], table: u16, key: &Key) -> usize
    requires { AreLast items.now places.now }
    ensures within { result ≤ length places.now }
    ensures up_to { IsCut (is_up_to items.now (Int (pos table) ∷ key.now)) places.now result }
{
    places.partition_point(
        |place: &usize| -> bool
            ensures { result ≡ is_up_to items.entry.now (Int (pos table) ∷ key.entry.now) place.now }
        { compare_at(items, *place, table, key).is_le() },
    )
}

/// Returns the place of the last write to a key, if there is one. `at` counts the places whose writes are up to and
/// including the key.
pub(crate) fn found_at(
    items: &Items<'_>,
    order: &[usize],
    at: usize,
    table: u8,
    key: &Key,
) -> Option<usize>
    requires indexed { IsIndexed items.now order.now }
    requires within { at ≤ length order.now }
    requires up_to { IsCut (is_up_to items.now (Int (pos table) ∷ key.now)) order.now at }
    ensures { IsFound items.now order.now at table key.now result }
{
    if at == 0 {
        return None;
    }
    let place = order[at - 1];
    if !is_on(items.write(place), table, key) {
        return None;
    }
    Some(place)
}

/// Returns the place of the last write to a key, if there is one. Costs the logarithm of the number of written keys.
pub(crate) fn last_on(items: &Items<'_>, order: &[usize], table: u8, key: &Key) -> Option<usize>
    requires { IsIndexed items.now order.now }
    ensures { IsLastOn items.now table key.now result }
{
    let at = count_up_to(items, order, table as u16, key);
    found_at(items, order, at, table, key)
}

/// Puts the place of a new last write into the order: instead of that of the last write to its key, if there is one, else
/// behind the first `at` places. Moves the places behind a new one. Fails if memory runs out.
pub(crate) fn renew(
    order: &mut Vec<usize>,
    at: usize,
    found: Option<usize>,
    last: usize,
) -> Result<(), NoMemory>
    requires within { at ≤ length order.old.items }
    requires found { IfSome found (λ place. 0 < at) }
    ensures ok { OnOk result (order.new.items ≡ renewed order.old.items at found last) }
    ensures err { OnErr result (order.new.items ≡ order.old.items) }
{
    match found {
        Some(_) => order[at - 1] = last,
        None => order.insert(at, last)?,
    }
    Ok(())
}

/// Counts the places whose writes are to lower tables, or to the table before the end of a span of keys.
fn count_before_end(items: &Items<'_>, order: &[usize], table: u8, span: &Span) -> usize
    requires { AreLast items.now order.now }
    ensures within { result ≤ length order.now }
    ensures before { IsCut (is_below items.now (end_in table span.now)) order.now result }
{
    match &span.high {
        Some(high) => count_below(items, order, table as u16, high),
        None => {
            let empty = Key::new();
            count_below(items, order, table as u16 + 1, &empty)
        }
    }
}

/// Returns the places of the last writes to keys of a table that are in a span. Costs the logarithm of the number of
/// written keys.
pub(crate) fn places_in<'a>(
    items: &Items<'_>,
    order: &'a [usize],
    table: u8,
    span: &Span,
) -> &'a [usize]
    requires indexed { IsIndexed items.now order.now }
    requires forward { IsForward span.now }
    ensures last { AreLast items.now result.now }
    ensures each { (key : List Value) → is_within span.now key ≡ true → HasNone items.now table key result.now → owned_on table key items.now ≡ [] }
{
    let from = count_below(items, order, table as u16, &span.low);
    let to = count_before_end(items, order, table, span);
    part(order, from, to)
}
