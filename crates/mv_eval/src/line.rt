//! The line that PRINT adds.

ghost use Rattle.std.specs.Prelude.{◌≡◌, ◌++◌, All, OnOk, IfOk};
ghost use Rattle.mv_values.specs.Printable.{IsPrintable};
ghost use Rattle.mv_values.specs.Texts.{doubled};
ghost use Rattle.mv_values.specs.Texts.{quoted};
ghost use Rattle.mv_eval.specs.Line.{printed, item_of, line_of};
ghost use Rattle.mv_eval.specs.Value.{values_of};
ghost use Rattle.mv_eval.specs.Results.{Makes};
ghost use Rattle.mv_eval.specs.Known.{seen};

use crate::expr::{add_number, lend};
use crate::known::{Known, lent};
use crate::state::{Env, Stop};
use memchr::memchr;
use mv_catalog::resolved::RExpr;
use mv_values::memory::NoMemory;
use mv_values::txt::Txt;
use mv_values::value::Value;
use std::alloc::Global;

/// Adds bytes one by one, with each quote doubled.
fn add_bytes(text: &mut Txt, bytes: &[u8]) -> Result<(), NoMemory>
    requires { All IsPrintable bytes.now }
    ensures { OnOk result (text.new ≡ text.old ++ doubled bytes.now) }
{
    for byte in bytes {
        if *byte == b'\'' {
            text.append(b"''")?;
        } else {
            text.append(&[*byte])?;
        }
    }
    Ok(())
}

/// Adds bytes with each quote doubled. Few texts have one.
#[tactic(auto, using(crate::proofs::Printing::no_quote))]
fn add_doubled(text: &mut Txt, bytes: &[u8]) -> Result<(), NoMemory>
    requires { All IsPrintable bytes.now }
    ensures { OnOk result (text.new ≡ text.old ++ doubled bytes.now) }
{
    match memchr(b'\'', bytes) {
        None => text.append(bytes),
        Some(_) => add_bytes(text, bytes),
    }
}

/// Adds bytes in single quotes, with each quote doubled.
fn add_quoted(line: &mut Txt, bytes: &[u8]) -> Result<(), NoMemory>
    requires { All IsPrintable bytes.now }
    ensures { OnOk result (line.new ≡ line.old ++ quoted bytes.now) }
{
    line.append(b"'")?;
    add_doubled(line, bytes)?;
    line.append(b"'")
}

fn add_value(line: &mut Txt, value: &Known<'_>) -> Result<(), NoMemory>
    ensures { OnOk result (line.new ≡ line.old ++ printed (seen value.now)) }
{
    match value {
        Known::Int(n) => add_number(line, *n),
        Known::Text(t) => add_quoted(line, t.as_slice()),
        Known::Made(t) => add_quoted(line, t.as_slice()),
    }
}

/// Adds a value to a line, with a comma before it if there are values before it.
fn add_item(line: &mut Txt, more: bool, value: &Known<'_>) -> Result<(), NoMemory>
    ensures { OnOk result (line.new ≡ line.old ++ item_of more (seen value.now)) }
{
    if more {
        line.append(b",")?;
    }
    add_value(line, value)
}

/// Returns the values joined by commas. A text is in single quotes, and each quote in it is doubled. Fails if memory
/// runs out.
pub fn line_from(alloc: Global, values: &[Value]) -> Result<Txt, NoMemory>
    ensures { IfOk result (λ t. t ≡ line_of values.now) }
{
    let mut line = Txt::new(alloc);
    for (i, value) in values.iter().enumerate() {
        if 0 < i {
            line.append(b",")?;
        }
        add_value(&mut line, &lent(value))?;
    }
    Ok(line)
}

/// Evaluates expressions, in order, up to the first fault. Returns their values as `line_from` does, and makes no list of
/// them. Copies no text but into the line.
#[tactic(auto, using(crate::proofs::Lines::line_stops))]
pub fn line_of_exprs(alloc: Global, exprs: &[RExpr], env: &Env) -> Result<Txt, Stop>
    ensures { Makes line_of result (values_of exprs.now env.now) }
{
    let mut line = Txt::new(alloc);
    let mut more = false;
    for expr in exprs {
        let value = lend(alloc, expr, env, &[])?;
        add_item(&mut line, more, &value)?;
        more = true;
    }
    Ok(line)
}
