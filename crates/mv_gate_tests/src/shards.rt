//! Which shard has a row.

use mv_shards::parts::shard_of;
use mv_values::memory::NoMemory;
use mv_values::txt::Txt;
use mv_values::value::{Key, Value};
use std::alloc::Global;
use std::test::*;

/// Returns a key. None stands for a text.
fn key_with(alloc: Global, parts: &[Option<i64>]) -> Result<Key, NoMemory> {
    let mut key = Key::new();
    for part in parts {
        let value = match part {
            Some(number) => Value::Int(*number),
            None => Value::Text(Txt::new(alloc)),
        };
        key.push(alloc, value)?;
    }
    Ok(key)
}

/// A table, a key of it, and the shard of its row.
const PLACED: &[(u8, &[Option<i64>], u32)] = &[
    (0, &[Some(3)], 3),
    (1, &[Some(-4)], 5),
    (0, &[Some(-1)], 7),
    (0, &[Some(-8)], 0),
    (1, &[Some(i64::MAX)], 0),
    (2, &[Some(i64::MIN)], 2),
    (63, &[Some(9)], 0),
    (0, &[Some(1), Some(2)], 1),
    (3, &[None], 3),
    (2, &[None, Some(5)], 7),
];

#[test]
fn the_first_number_of_a_key_tells_its_shard(rt: HostRuntime) -> Result<(), Fail> {
    for (table, parts, want) in PLACED {
        let key = key_with(rt.alloc(), parts)?;
        assert_eq!(rt; shard_of(*table, &key), *want);
    }
    Ok(())
}
