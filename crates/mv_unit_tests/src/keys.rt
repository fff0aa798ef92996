//! Keys beside the lists of their values.

use crate::cases::ensure_at;
use crate::values::{Given, value};
use mv_values::copied::Copied;
use mv_values::key::{key_after, key_from};
use mv_values::list::List;
use mv_values::memory::NoMemory;
use mv_values::value::{Key, Value, are_same, compare_keys};
use std::alloc::Global;
use std::cmp::Ordering;
use std::test::Fail;

/// Keys in rising order, of none to five values.
const KEYS: &[&[Given]] = &[
    &[],
    &[Given::Number(i64::MIN)],
    &[Given::Number(-1)],
    &[Given::Number(-1), Given::Number(7)],
    &[Given::Number(-1), Given::Text("")],
    &[Given::Number(0)],
    &[Given::Number(0), Given::Number(-1)],
    &[Given::Number(0), Given::Number(0)],
    &[
        Given::Number(0),
        Given::Number(0),
        Given::Number(0),
        Given::Number(0),
    ],
    &[
        Given::Number(0),
        Given::Number(0),
        Given::Number(0),
        Given::Number(0),
        Given::Number(0),
    ],
    &[Given::Number(0), Given::Number(0), Given::Number(1)],
    &[
        Given::Number(1),
        Given::Number(2),
        Given::Number(3),
        Given::Number(-4),
    ],
    &[
        Given::Number(1),
        Given::Number(2),
        Given::Number(3),
        Given::Number(4),
        Given::Number(-5),
    ],
    &[
        Given::Number(1),
        Given::Number(2),
        Given::Number(3),
        Given::Number(4),
        Given::Text("a"),
    ],
    &[
        Given::Number(1),
        Given::Number(2),
        Given::Number(3),
        Given::Text("a"),
    ],
    &[Given::Number(1), Given::Text("a")],
    &[Given::Number(1), Given::Text("a"), Given::Number(2)],
    &[Given::Number(i64::MAX)],
    &[Given::Text("")],
    &[Given::Text("a"), Given::Number(3)],
    &[Given::Text("ab")],
];

fn list_of(alloc: Global, case: &[Given]) -> Result<List<Value>, NoMemory> {
    let mut values = List::new(alloc);
    for given in case {
        values.push(value(alloc, given)?)?;
    }
    Ok(values)
}

/// Whether two keys, and the lists of their values, compare so.
fn compare_so(
    alloc: Global,
    case: &[Given],
    other: &[Given],
    want: Ordering,
) -> Result<bool, NoMemory> {
    let values = list_of(alloc, case)?;
    let other_values = list_of(alloc, other)?;
    let key = key_from(alloc, values.as_slice())?;
    let other_key = key_from(alloc, other_values.as_slice())?;
    Ok(
        key.order(&other_key) == want
            && (key == other_key) == want.is_eq()
            && compare_keys(values.as_slice(), other_values.as_slice()) == want,
    )
}

#[test]
fn keys_compare_as_their_values_do(rt: HostRuntime) -> Result<(), Fail> {
    let alloc = rt.alloc();
    for (i, case) in KEYS.iter().enumerate() {
        for (j, other) in KEYS.iter().enumerate() {
            ensure_at(alloc, compare_so(alloc, case, other, i.cmp(&j))?, i)?;
        }
    }
    Ok(())
}

/// Whether the key has these values, one by one and as a list. Where it has none there is a 0.
fn has_values(alloc: Global, key: &Key, values: &[Value]) -> Result<bool, NoMemory> {
    for (at, value) in values.iter().enumerate() {
        if !key.part(at).copy(alloc)?.order(value).is_eq() {
            return Ok(false);
        }
    }
    let listed = key.values(alloc)?;
    Ok(
        key.len() == values.len()
            && key.part(values.len()).number() == Some(0)
            && are_same(listed.as_slice(), values),
    )
}

#[test]
fn keys_have_the_values_they_are_made_of(rt: HostRuntime) -> Result<(), Fail> {
    let alloc = rt.alloc();
    for (i, case) in KEYS.iter().enumerate() {
        let values = list_of(alloc, case)?;
        let key = key_from(alloc, values.as_slice())?;
        ensure_at(alloc, has_values(alloc, &key, values.as_slice())?, i)?;
        let copy = key.copy(alloc)?;
        ensure_at(alloc, has_values(alloc, &copy, values.as_slice())?, i)?;
    }
    Ok(())
}

#[test]
fn a_number_is_put_in_front_of_a_key(rt: HostRuntime) -> Result<(), Fail> {
    let alloc = rt.alloc();
    for (i, case) in KEYS.iter().enumerate() {
        let mut values = list_of(alloc, case)?;
        let key = key_after(alloc, 8, &key_from(alloc, values.as_slice())?)?;
        values.insert(0, Value::Int(8))?;
        ensure_at(alloc, has_values(alloc, &key, values.as_slice())?, i)?;
    }
    Ok(())
}
