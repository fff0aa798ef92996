//! Which shard has all rows of a predicate.

ghost use Rattle.std.specs.Prelude.{◌≡◌, ◌<◌, List, IfSome};
ghost use Rattle.mv_values.specs.declared.value.Value.{Value};
ghost use Rattle.mv_values.specs.declared.op.Op.TheVariants.{Eq};
ghost use Rattle.mv_table.specs.Spans.{is_place, Admits, HoldsAt};
ghost use Rattle.mv_shards.specs.Parts.{first_int};
ghost use Rattle.mv_shards.specs.Reads.{Fixes};

use crate::parts::{SHARDS, residue};
use mv_values::op::Op;
use mv_values::pred::Test;
use mv_values::pred_ref::PredRef;
use mv_values::value::Value;

/// Whether a test's place in the key is this one.
fn is_place(key_place: Option<u8>, place: usize) -> bool
    ensures { result ≡ is_place key_place place }
{
    match key_place {
        None => false,
        Some(p) => p as usize == place,
    }
}

/// Returns the first test by `=` on a place of the key.
fn test_at(tests: &[Test], place: usize) -> Option<&Test>
    ensures equal { IfSome result (λ test. test.now.op ≡ Eq) }
    ensures holds { IfSome result (λ test. HoldsAt tests.now place test.now) }
{
    for test in tests {
        if is_place(test.key_place, place) && test.op == Op::Eq {
            return Some(test);
        }
    }
    None
}

/// Returns the first number of the keys that the tests admit, if `=` gives it and each text before it.
fn fixed_int(tests: &[Test]) -> Option<i64>
    ensures { IfSome result (λ n. (key : List Value) → Admits tests.now key → first_int key ≡ n) }
{
    for place in 0..tests.len() {
        let Some(test) = test_at(tests, place) else {
            return None;
        };
        if let Value::Int(n) = &test.value {
            return Some(*n);
        }
    }
    None
}

/// Returns the shard of each key that the predicate admits, if its tests fix one.
pub fn fixed_shard(pred: &PredRef<'_>) -> Option<u32>
    ensures there { IfSome result (λ q. q < 8) }
    ensures fixes { IfSome result (λ q. Fixes q pred.now) }
{
    match fixed_int(pred.tests()) {
        Some(n) => Some((u32::from(pred.table()) + residue(n)) % SHARDS),
        None => None,
    }
}
