//! Evaluates expressions.

ghost use Rattle.std.specs.Prelude.{◌≡◌, ◌++◌, ◌+ℤ◌, ◌-ℤ◌, ◌*ℤ◌, neg_ℤ, [], true, Ok, if◌then◌else◌, pos, IfOk, OnOk, All};
ghost use Rattle.mv_values.specs.declared.value.Value.{Value};
ghost use Rattle.mv_values.specs.declared.value.Value.TheVariants.{Text};
ghost use Rattle.mv_ast.specs.declared.tree.TwoOp.TheVariants.{Compare};
ghost use Rattle.mv_values.specs.Printable.{IsPrintable};
ghost use Rattle.std.specs.Fmt.{signed_decimal};
ghost use Rattle.mv_values.specs.Columns.{number, column_of};
ghost use Rattle.mv_eval.specs.Results.{Gives, Makes};
ghost use Rattle.mv_eval.specs.Env.{scalar_at};
ghost use Rattle.mv_eval.specs.Value.{value_of, is_so, fitted, quotient, remainder, joined, left_of, contains, one_of, two_of, both_of, needs_right};
ghost use Rattle.mv_eval.specs.Known.{seen, Tells, TellsInt, Counts, takes_numbers};
ghost use Rattle.mv_eval.specs.Alone.{offset_of};

use crate::env::turn;
use crate::known::{
    EvalFault, Known, bytes_in, lent, lent_column, lent_scalar, number_of, order, owned,
};
use crate::state::{Content, Env, Stop};
use itoa::Buffer;
use memchr::memmem;
use mv_ast::tree::{OneOp, TwoOp};
use mv_catalog::resolved::{RExpr, RExprKind};
use mv_values::memory::NoMemory;
use mv_values::op::Op;
use mv_values::txt::Txt;
use mv_values::value::Value;
use std::alloc::Global;

/// Returns the number of an INT, and 0 for a TEXT.
pub fn number_in(v: &Value) -> i64
    ensures { result ≡ number v.now }
{
    match v {
        Value::Int(n) => *n,
        Value::Text(_) => 0,
    }
}

/// Returns the number of a column, or 0 if the row has no such column.
pub(crate) fn number_at(row: &[Value], c: u16) -> i64
    ensures { result ≡ number (column_of row.now c) }
{
    match row.get(c as usize) {
        Some(v) => number_in(v),
        None => 0,
    }
}

/// Returns the number of a variable, or 0 if the variable holds rows.
fn number_held(env: &Env, x: u16) -> i64
    ensures { result ≡ number (scalar_at env.now x) }
{
    match env.held.as_slice().get(x as usize) {
        Some(Content::Scalar(v)) => number_in(v),
        _ => 0,
    }
}

/// Returns 1 for true and 0 for false.
fn flag(b: bool) -> i64
    ensures { result ≡ (if b then pos 1 else pos 0) }
{
    if b { 1 } else { 0 }
}

fn sum(a: i64, b: i64) -> Result<i64, EvalFault>
    ensures { TellsInt result (fitted (a +ℤ b)) }
{
    match a.checked_add(b) {
        Some(n) => Ok(n),
        None => Err(EvalFault::Overflow),
    }
}

fn difference(a: i64, b: i64) -> Result<i64, EvalFault>
    ensures { TellsInt result (fitted (a -ℤ b)) }
{
    match a.checked_sub(b) {
        Some(n) => Ok(n),
        None => Err(EvalFault::Overflow),
    }
}

fn product(a: i64, b: i64) -> Result<i64, EvalFault>
    ensures { TellsInt result (fitted (a *ℤ b)) }
{
    match a.checked_mul(b) {
        Some(n) => Ok(n),
        None => Err(EvalFault::Overflow),
    }
}

fn negative(a: i64) -> Result<i64, EvalFault>
    ensures { TellsInt result (fitted (neg_ℤ a)) }
{
    match a.checked_neg() {
        Some(n) => Ok(n),
        None => Err(EvalFault::Overflow),
    }
}

fn quotient_of(a: i64, b: i64) -> Result<i64, EvalFault>
    ensures { TellsInt result (quotient a b) }
{
    if b == 0 {
        return Err(EvalFault::ZeroDivisor);
    }
    match a.checked_div(b) {
        Some(n) => Ok(n),
        None => Err(EvalFault::Overflow),
    }
}

fn remainder_of(a: i64, b: i64) -> Result<i64, EvalFault>
    ensures { TellsInt result (remainder a b) }
{
    if b == 0 {
        return Err(EvalFault::ZeroDivisor);
    }
    Ok(a.wrapping_rem(b))
}

fn join<'a>(alloc: Global, s: &[u8], t: &[u8]) -> Result<Known<'a>, EvalFault>
    requires left { All IsPrintable s.now }
    requires right { All IsPrintable t.now }
    ensures { Tells result (joined (s.now ++ t.now)) }
{
    if 4_000 < s.len() || 4_000 - s.len() < t.len() {
        return Err(EvalFault::TooLong);
    }
    let mut all = Txt::new(alloc);
    all.append(s)?;
    all.append(t)?;
    Ok(Known::Made(all))
}

/// Returns the first bytes of a text.
fn front(t: &[u8], n: i64) -> &[u8]
    ensures { result.now ≡ left_of t.now n }
{
    if n < 0 {
        return &[];
    }
    let n = n as u64;
    if n < t.len() as u64 {
        &t[..n as usize]
    } else {
        t
    }
}

fn first<'a>(alloc: Global, t: &[u8], n: i64) -> Result<Known<'a>, EvalFault>
    requires { All IsPrintable t.now }
    ensures { Tells result (Ok (Text (left_of t.now n))) }
{
    Ok(Known::Made(Txt::of(alloc, front(t, n))?))
}

fn is_in(u: &[u8], t: &[u8]) -> bool
    ensures { result ≡ contains t.now u.now }
{
    memmem::find(t, u).is_some()
}

/// Adds the decimal digits of a number, after `-` if it is negative.
pub(crate) fn add_number(text: &mut Txt, n: i64) -> Result<(), NoMemory>
    ensures { OnOk result (text.new ≡ text.old ++ signed_decimal n) }
{
    if n < 0 {
        text.append(b"-")?;
    }
    let mut digits = Buffer::new();
    text.append(digits.format(n.unsigned_abs()).as_bytes())
}

/// Returns the decimal digits of a number, after `-` if it is negative.
fn digits(alloc: Global, n: i64) -> Result<Txt, NoMemory>
    ensures { IfOk result (λ t. t ≡ signed_decimal n) }
{
    let mut text = Txt::new(alloc);
    add_number(&mut text, n)?;
    Ok(text)
}

/// Applies an operator to a number.
fn one<'a>(alloc: Global, op: OneOp, n: i64) -> Result<Known<'a>, EvalFault>
    ensures { (v : Value) → number v ≡ n → Tells result (one_of op v) }
{
    match op {
        OneOp::Neg => Ok(Known::Int(negative(n)?)),
        OneOp::Not => Ok(Known::Int(flag(n == 0))),
        OneOp::TextOf => Ok(Known::Made(digits(alloc, n)?)),
    }
}

/// Applies an operator to a number. Of a text that it gives, no byte is made.
fn counted_one(op: OneOp, n: i64) -> Result<i64, EvalFault>
    ensures { (v : Value) → number v ≡ n → Counts result (one_of op v) }
{
    match op {
        OneOp::Neg => negative(n),
        OneOp::Not => Ok(flag(n == 0)),
        OneOp::TextOf => Ok(0),
    }
}

/// Whether AND or OR has to evaluate its right side, given the number of the left one.
fn needs(op: TwoOp, n: i64) -> bool
    ensures { (v : Value) → number v ≡ n → result ≡ needs_right op v }
{
    match op {
        TwoOp::And => n != 0,
        TwoOp::Or => n == 0,
        _ => true,
    }
}

/// Whether only the numbers of its sides matter to an operator.
fn takes_numbers(op: TwoOp) -> bool
    ensures { result ≡ takes_numbers op }
{
    match op {
        TwoOp::Compare(_) | TwoOp::Contains | TwoOp::Join | TwoOp::Left => false,
        _ => true,
    }
}

/// Applies an operator to the numbers of its sides, which are all that matters of them.
fn calculated(op: TwoOp, n: i64, m: i64) -> Result<i64, EvalFault>
    requires { takes_numbers op ≡ true }
    ensures { (v w : Value) → number v ≡ n → number w ≡ m → TellsInt result (both_of op v w) }
{
    match op {
        TwoOp::Add => sum(n, m),
        TwoOp::Sub => difference(n, m),
        TwoOp::Mul => product(n, m),
        TwoOp::Div => quotient_of(n, m),
        TwoOp::Rem => remainder_of(n, m),
        TwoOp::And => Ok(flag(n != 0 && m != 0)),
        TwoOp::Or => Ok(flag(n != 0 || m != 0)),
        TwoOp::Compare(_) | TwoOp::Contains | TwoOp::Join | TwoOp::Left => Ok(0),
    }
}

/// Evaluates the right side of an operator to which only numbers matter, unless the left one decides, and applies the
/// operator.
#[cycle(evaluation)]
fn calculate(
    alloc: Global,
    op: TwoOp,
    n: i64,
    b: &RExpr,
    env: &Env,
    row: &[Value],
) -> Result<i64, EvalFault>
    requires { takes_numbers op ≡ true }
    ensures { (v : Value) → number v ≡ n → TellsInt result (two_of op (Ok v) (value_of b.now env.now row.now)) }
{
    if !needs(op, n) {
        return Ok(flag(n != 0));
    }
    let m = count(alloc, b, env, row)?;
    calculated(op, n, m)
}

/// Evaluates the right side of a comparison, and compares.
#[cycle(evaluation)]
fn compare(
    alloc: Global,
    op: Op,
    v: &Known<'_>,
    b: &RExpr,
    env: &Env,
    row: &[Value],
) -> Result<i64, EvalFault>
    ensures { TellsInt result (two_of (Compare op) (Ok (seen v.now)) (value_of b.now env.now row.now)) }
{
    let w = lend(alloc, b, env, row)?;
    Ok(flag(op.allows(order(v, &w))))
}

/// Evaluates an expression over these variables and the row of an UPDATE, and lends its value. Copies no text. Fails as
/// `value`.
#[cycle(evaluation)]
pub fn lend<'a>(
    alloc: Global,
    e: &'a RExpr,
    env: &'a Env,
    row: &'a [Value],
) -> Result<Known<'a>, EvalFault>
    ensures { Tells result (value_of e.now env.now row.now) }
{
    match &e.kind {
        RExprKind::Const(v) => Ok(lent(v)),
        RExprKind::Var(x) => Ok(lent_scalar(env, *x)),
        RExprKind::Field(x, c) => Ok(lent_column(turn(env, *x), *c)),
        RExprKind::Col(c) => Ok(lent_column(row, *c)),
        RExprKind::One(..) | RExprKind::Two(..) => made(alloc, e, env, row),
    }
}

/// Evaluates an expression with an operator, and lends its value. `lend` has the others, so that it is short.
#[cycle(evaluation)]
fn made<'a>(
    alloc: Global,
    e: &'a RExpr,
    env: &'a Env,
    row: &'a [Value],
) -> Result<Known<'a>, EvalFault>
    ensures { Tells result (value_of e.now env.now row.now) }
{
    match &e.kind {
        RExprKind::Const(v) => Ok(lent(v)),
        RExprKind::Var(x) => Ok(lent_scalar(env, *x)),
        RExprKind::Field(x, c) => Ok(lent_column(turn(env, *x), *c)),
        RExprKind::Col(c) => Ok(lent_column(row, *c)),
        RExprKind::One(op, a) => {
            let n = count(alloc, a.get(), env, row)?;
            one(alloc, *op, n)
        }
        RExprKind::Two(op, a, b) => match op {
            TwoOp::Join => {
                let v = lend(alloc, a.get(), env, row)?;
                let w = lend(alloc, b.get(), env, row)?;
                join(alloc, bytes_in(&v), bytes_in(&w))
            }
            TwoOp::Left => {
                let v = lend(alloc, a.get(), env, row)?;
                let n = count(alloc, b.get(), env, row)?;
                first(alloc, bytes_in(&v), n)
            }
            TwoOp::Contains => {
                let v = lend(alloc, a.get(), env, row)?;
                let w = lend(alloc, b.get(), env, row)?;
                Ok(Known::Int(flag(is_in(bytes_in(&w), bytes_in(&v)))))
            }
            TwoOp::Compare(op) => {
                let v = lend(alloc, a.get(), env, row)?;
                Ok(Known::Int(compare(alloc, *op, &v, b.get(), env, row)?))
            }
            _ => {
                let n = count(alloc, a.get(), env, row)?;
                Ok(Known::Int(calculate(alloc, *op, n, b.get(), env, row)?))
            }
        },
    }
}

/// As `lend`, where only the number of the value matters. It is 0 for a TEXT.
#[cycle(evaluation)]
pub fn count(alloc: Global, e: &RExpr, env: &Env, row: &[Value]) -> Result<i64, EvalFault>
    ensures { Counts result (value_of e.now env.now row.now) }
{
    match &e.kind {
        RExprKind::Const(v) => Ok(number_in(v)),
        RExprKind::Var(x) => Ok(number_held(env, *x)),
        RExprKind::Field(x, c) => Ok(number_at(turn(env, *x), *c)),
        RExprKind::Col(c) => Ok(number_at(row, *c)),
        RExprKind::One(..) | RExprKind::Two(..) => counted(alloc, e, env, row),
    }
}

/// Evaluates an expression with an operator, where only the number of the value matters.
#[cycle(evaluation)]
fn counted(alloc: Global, e: &RExpr, env: &Env, row: &[Value]) -> Result<i64, EvalFault>
    ensures { Counts result (value_of e.now env.now row.now) }
{
    match &e.kind {
        RExprKind::One(op, a) => {
            let n = count(alloc, a.get(), env, row)?;
            counted_one(*op, n)
        }
        RExprKind::Two(TwoOp::Compare(op), a, b) => {
            let v = lend(alloc, a.get(), env, row)?;
            compare(alloc, *op, &v, b.get(), env, row)
        }
        RExprKind::Two(op, a, b) if takes_numbers(*op) => {
            let n = count(alloc, a.get(), env, row)?;
            calculate(alloc, *op, n, b.get(), env, row)
        }
        _ => {
            let v = made(alloc, e, env, row)?;
            Ok(number_of(&v))
        }
    }
}

/// Whether the value of an expression is an INT other than 0. Makes no value. Fails as `value`.
pub fn holds(alloc: Global, test: &RExpr, env: &Env) -> Result<bool, Stop>
    ensures { Makes is_so result (value_of test.now env.now []) }
{
    let n = count(alloc, test, env, &[])?;
    Ok(n != 0)
}

/// Evaluates an expression over these variables and the row of an UPDATE. Ends the call with `Overflow` if a number
/// doesn't fit in 64 bits, with `ZeroDivisor` if a divisor is 0, and with `TooLong` if a text has more than 4,000
/// bytes. Fails with `Memory` if memory runs out.
pub fn value(alloc: Global, e: &RExpr, env: &Env, row: &[Value]) -> Result<Value, Stop>
    ensures { Gives result (value_of e.now env.now row.now) }
{
    let known = lend(alloc, e, env, row)?;
    Ok(owned(alloc, known)?)
}

/// Evaluates OFFSET, which is 0 if it isn't written. Its faults are those of its expression.
pub fn offset(alloc: Global, offset: &Option<RExpr>, env: &Env) -> Result<Value, Stop>
    ensures { Gives result (offset_of offset.now env.now) }
{
    match offset {
        None => Ok(Value::Int(0)),
        Some(e) => value(alloc, e, env, &[]),
    }
}
