//! Values that an expression lends, and why its evaluation stops.

ghost use Rattle.std.specs.Prelude.{◌≡◌, IfOk, All};
ghost use Rattle.mv_values.specs.Printable.{IsPrintable};
ghost use Rattle.mv_values.specs.Columns.{number, column_of};
ghost use Rattle.mv_values.specs.Order.{value_order};
ghost use Rattle.mv_eval.specs.Env.{scalar_at};
ghost use Rattle.mv_eval.specs.Known.{seen};
ghost use Rattle.mv_eval.specs.Value.{text};

use crate::state::{Content, Env, Stop};
use mv_values::calls::End;
use mv_values::copied::Copied;
use mv_values::memory::NoMemory;
use mv_values::txt::Txt;
use mv_values::value::Value;
use std::alloc::Global;
use std::cmp::Ordering;

/// Why the evaluation of an expression stopped: memory ran out, or the call ends.
#[derive(Clone, Copy)]
pub enum EvalFault {
    Memory,
    Overflow,
    ZeroDivisor,
    TooLong,
}

impl From<NoMemory> for EvalFault {
    ghost use Rattle.std.specs.Prelude.{◌≡◌};
    ghost use Rattle.mv_eval.specs.declared.known.EvalFault.TheVariants.{Memory};

    ghost from_gives = { λ _ e. e ≡ Memory };

    fn from(_error: NoMemory) -> EvalFault {
        EvalFault::Memory
    }
}

impl From<EvalFault> for Stop {
    ghost use Rattle.std.specs.Prelude.{◌≡◌};
    ghost use Rattle.mv_eval.specs.Known.{stop_of};

    ghost from_gives = { λ fault stop. stop ≡ stop_of fault };

    fn from(fault: EvalFault) -> Stop {
        match fault {
            EvalFault::Memory => Stop::Memory,
            EvalFault::Overflow => Stop::Ended(End::Overflow),
            EvalFault::ZeroDivisor => Stop::Ended(End::ZeroDivisor),
            EvalFault::TooLong => Stop::Ended(End::TooLong),
        }
    }
}

/// The value of an expression: a number, a text of the expression or of its variables, or a text that was made.
#[derive(Drop)]
pub enum Known<'a> {
    Int(i64),
    Text(&'a Txt),
    Made(Txt),
}

/// Lends a value.
pub(crate) fn lent(value: &Value) -> Known<'_>
    ensures { seen result ≡ value.now }
{
    match value {
        Value::Int(n) => Known::Int(*n),
        Value::Text(t) => Known::Text(t),
    }
}

/// Lends the value of a column, or 0 if the row has no such column.
pub(crate) fn lent_column(row: &[Value], c: u16) -> Known<'_>
    ensures { seen result ≡ column_of row.now c }
{
    match row.get(c as usize) {
        Some(value) => lent(value),
        None => Known::Int(0),
    }
}

/// Lends the value of a variable, or 0 if the variable holds rows.
pub(crate) fn lent_scalar(env: &Env, x: u16) -> Known<'_>
    ensures { seen result ≡ scalar_at env.now x }
{
    match env.held.as_slice().get(x as usize) {
        Some(Content::Scalar(value)) => lent(value),
        _ => Known::Int(0),
    }
}

/// Returns the number of an INT, and 0 for a TEXT.
pub(crate) fn number_of(v: &Known<'_>) -> i64
    ensures { result ≡ number (seen v.now) }
{
    match v {
        Known::Int(n) => *n,
        Known::Text(_) | Known::Made(_) => 0,
    }
}

/// Returns the bytes of a TEXT, and none for an INT.
pub(crate) fn bytes_in<'a>(v: &'a Known<'_>) -> &'a [u8]
    ensures bytes { result.now ≡ text (seen v.now) }
    ensures printable { All IsPrintable (text (seen v.now)) }
{
    match v {
        Known::Int(_) => &[],
        Known::Text(t) => t.as_slice(),
        Known::Made(t) => t.as_slice(),
    }
}

/// Compares two values: an INT comes before a TEXT.
pub(crate) fn order(v: &Known<'_>, w: &Known<'_>) -> Ordering
    ensures { result ≡ value_order (seen v.now) (seen w.now) }
{
    match (v, w) {
        (Known::Int(m), Known::Int(n)) => m.cmp(n),
        (Known::Int(_), _) => Ordering::Less,
        (_, Known::Int(_)) => Ordering::Greater,
        _ => bytes_in(v).cmp(bytes_in(w)),
    }
}

/// Returns the value, with a copy of a text that is lent. Fails if memory runs out.
pub(crate) fn owned(alloc: Global, v: Known<'_>) -> Result<Value, NoMemory>
    ensures { IfOk result (λ value. value ≡ seen v.entry) }
{
    match v {
        Known::Int(n) => Ok(Value::Int(n)),
        Known::Text(t) => Ok(Value::Text(t.copy(alloc)?)),
        Known::Made(t) => Ok(Value::Text(t)),
    }
}
