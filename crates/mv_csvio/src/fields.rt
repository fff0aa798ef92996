//! Parses the fields of a record.

ghost use Rattle.std.specs.Prelude.{◌≡◌, ◌==◌, All, IfOk, IsTrue, slice_index};
ghost use Rattle.std.specs.List.{list_all};
ghost use Rattle.mv_values.specs.Printable.{IsPrintable, is_printable};
ghost use Rattle.mv_csvio.specs.Fields.{is_text, number_in, value_in};

use mv_values::memory::NoMemory;
use mv_values::schema::ColType;
use mv_values::txt::Txt;
use mv_values::value::Value;
use std::alloc::Global;
use std::str;

/// Returns the field as a value of the type, or `None` if it isn't one.
pub(crate) fn value_of(
    alloc: Global,
    kind: ColType,
    field: &[u8],
) -> Result<Option<Value>, NoMemory>
    ensures { IfOk result (λ value. value ≡ value_in kind field.now) }
{
    match kind {
        ColType::Int => Ok(number_of(field).map(Value::Int)),
        ColType::Text(most) => {
            if !is_text(most, field) {
                return Ok(None);
            }
            Ok(Some(Value::Text(Txt::of(alloc, field)?)))
        }
    }
}

/// Returns the field as a 64-bit signed number, or `None` if it isn't an optional `-` and digits.
fn number_of(field: &[u8]) -> Option<i64>
    ensures { result ≡ number_in field.now }
{
    if has_plus(field) {
        return None;
    }
    let text = str::from_utf8(field).ok()?;
    text.parse().ok()
}

/// Whether the field begins with `+`.
fn has_plus(field: &[u8]) -> bool
    ensures { result ≡ (slice_index field.now 0 == 43) }
{
    matches!(field, [b'+', ..])
}

/// Whether the field is printable and no longer than the limit, in bytes.
fn is_text(most: u16, field: &[u8]) -> bool
    ensures text { result ≡ is_text most field.now }
    ensures printable { IsTrue result → All IsPrintable field.now }
{
    field.len() <= most as usize && are_printable(field)
}

#[tactic(auto, using(crate::proofs::Values::all_printable))]
fn are_printable(field: &[u8]) -> bool
    ensures value { result ≡ list_all is_printable field.now }
    ensures printable { IsTrue result → All IsPrintable field.now }
{
    for byte in field {
        if !is_printable(*byte) {
            return false;
        }
    }
    true
}

fn is_printable(byte: u8) -> bool
    ensures { result ≡ is_printable byte }
{
    32 <= byte && byte <= 126
}
