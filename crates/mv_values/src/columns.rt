//! The columns of rows.

ghost use Rattle.std.specs.Prelude.{◌≡◌, pos, IfOk};
ghost use Rattle.mv_values.specs.declared.value.Value.TheVariants.{Int};
ghost use Rattle.mv_values.specs.Columns.{column_of};

use crate::copied::Copied;
use crate::memory::NoMemory;
use crate::value::Value;
use std::alloc::Global;

/// Returns a copy of a row's value in a column, or 0 if the row has no such column. Fails if memory runs out.
pub fn value_at(alloc: Global, row: &[Value], column: usize) -> Result<Value, NoMemory>
    ensures { IfOk result (λ v. v ≡ column_of row.now column) }
{
    match row.get(column) {
        Some(value) => value.copy(alloc),
        None => Ok(Value::Int(0)),
    }
}

/// Returns a row's value in a column, or the given zero if the row has no such column.
pub fn value_in<'a>(row: &'a [Value], column: u8, zero: &'a Value) -> &'a Value
    requires { zero.now ≡ Int (pos 0) }
    ensures { result.now ≡ column_of row.now column }
{
    match row.get(column as usize) {
        Some(value) => value,
        None => zero,
    }
}
