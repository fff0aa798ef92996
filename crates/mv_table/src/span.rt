//! The span of keys that can satisfy tests.

ghost use Rattle.std.specs.Prelude.{◌≡◌, not, ◌++◌, ◌∷◌, [], ◌≤◌, true, false, pos, List, length, slice_range, IfOk, IfSome};
ghost use Rattle.std.specs.List.{filter};
ghost use Rattle.std.specs.Option.{is_some};
ghost use Rattle.std.specs.Ordering.{is_lt, is_le};
ghost use Rattle.std.specs.declared.cmp.Ordering.TheVariants.{Less};
ghost use Rattle.mv_values.specs.declared.value.Value.{Value};
ghost use Rattle.mv_values.specs.declared.value.Value.TheVariants.{Int};
ghost use Rattle.mv_values.specs.declared.rows.Keyed.{Keyed};
ghost use Rattle.mv_values.specs.declared.pred.Test.{Test};
ghost use Rattle.mv_values.specs.Columns.{column_of};
ghost use Rattle.mv_values.specs.Keys.{IsRising};
ghost use Rattle.mv_values.specs.Order.{value_order, key_order};
ghost use Rattle.mv_values.specs.Preds.{allows};
ghost use Rattle.mv_table.specs.declared.span.Side.TheVariants.{Both, Low, High};
ghost use Rattle.mv_table.specs.Scans.{NeverFallsAt, RisesAt};
ghost use Rattle.mv_table.specs.Spans.{is_past, is_within, IsForward, Admits, CoversAdmitted, FindsAll, Agrees, bounds, HoldsAt, is_place, is_bounded, are_fixed_before, AdmitsOnly};

use mv_values::copied::Copied;
use mv_values::key::key_from;
use mv_values::list::List;
use mv_values::memory::NoMemory;
use mv_values::op::Op;
use mv_values::pred::Test;
use mv_values::rows::Keyed;
use mv_values::txt::Txt;
use mv_values::value::{Key, Value};
use std::alloc::Global;

/// The keys from `low` on and below `high`. Without `high` the span has no end.
#[derive(Drop)]
pub struct Span {
    pub low: Key,
    pub high: Option<Key>,
}

/// The side from which a test bounds a value. `=` bounds it from both.
#[derive(Clone, Copy)]
enum Side {
    Both,
    Low,
    High,
}

impl Side {
    /// Whether a test by the comparison bounds a value from this side.
    fn bounds(self, op: Op) -> bool
        ensures { result ≡ bounds self op }
    {
        match (self, op) {
            (Side::Both, Op::Eq) => true,
            (Side::Low, Op::Gt) => true,
            (Side::Low, Op::Ge) => true,
            (Side::High, Op::Lt) => true,
            (Side::High, Op::Le) => true,
            _ => false,
        }
    }
}

/// Whether a test's place in the key is this one.
fn is_place(key_place: Option<u8>, place: usize) -> bool
    ensures { result ≡ is_place key_place place }
{
    match key_place {
        None => false,
        Some(p) => p as usize == place,
    }
}

/// Returns the first test on a place of the key that bounds its value from this side.
fn test_at(tests: &[Test], place: usize, side: Side) -> Option<&Test>
    ensures side { IfSome result (λ test. bounds side test.now.op ≡ true) }
    ensures holds { IfSome result (λ test. HoldsAt tests.now place test.now) }
    ensures there { is_some result ≡ is_bounded side tests.now place }
{
    for test in tests {
        if is_place(test.key_place, place) && side.bounds(test.op) {
            return Some(test);
        }
    }
    None
}

/// Returns the values that `=` gives the first columns of the key.
fn first_values(alloc: Global, tests: &[Test]) -> Result<List<Value>, NoMemory>
    ensures { IfOk result (λ front. (key : List Value) → Admits tests.now key → Agrees key front) }
{
    let mut front = List::new(alloc);
    for place in 0..tests.len() {
        match test_at(tests, place, Side::Both) {
            Some(test) => front.push(test.value.copy(alloc)?)?,
            None => return Ok(front),
        }
    }
    Ok(front)
}

/// Whether `=` fixes each value of the key before a place. Then the value at the place never falls from a key to a
/// greater one, and it rises if the keys end there.
pub fn is_fixed_before(tests: &[Test], place: usize) -> bool
    ensures fixed { result ≡ are_fixed_before tests.now place }
    ensures order { result ≡ true → NeverFallsAt tests.now place }
    ensures last { result ≡ true → RisesAt tests.now place }
{
    for before in 0..place {
        let Some(_) = test_at(tests, before, Side::Both) else {
            return false;
        };
    }
    true
}

/// Returns the key that `=` gives whole: a value for each of its `len` columns. Returns none if `=` doesn't give each of
/// them. Takes time linear in the size of these values, and in the number of tests for each. Fails if memory runs out.
pub fn whole_key(alloc: Global, tests: &[Test], len: usize) -> Result<Option<Key>, NoMemory>
    ensures given { IfOk result (λ key. is_some key ≡ are_fixed_before tests.now len) }
    ensures only { IfOk result (λ key. IfSome key (AdmitsOnly tests.now len)) }
{
    if !is_fixed_before(tests, len) {
        return Ok(None);
    }
    let mut key = Key::new();
    for place in 0..len {
        match test_at(tests, place, Side::Both) {
            Some(test) => key.push(alloc, test.value.copy(alloc)?)?,
            None => return Ok(None),
        }
    }
    Ok(Some(key))
}

/// Returns a value above this one.
fn value_above(alloc: Global, value: &Value) -> Result<Value, NoMemory>
    ensures { IfOk result (λ above. (v : Value) → is_le (value_order v value.now) ≡ true → value_order v above ≡ Less) }
{
    match value {
        Value::Int(n) => match n.checked_add(1) {
            Some(next) => Ok(Value::Int(next)),
            None => Ok(Value::Text(Txt::new(alloc))),
        },
        Value::Text(text) => {
            let mut longer = text.copy(alloc)?;
            longer.append(b" ")?;
            Ok(Value::Text(longer))
        }
    }
}

/// Returns a lower bound of the values that pass a test. For `>` on a text it is the text itself.
fn least_of(alloc: Global, test: &Test) -> Result<Value, NoMemory>
    requires { bounds Low test.now.op ≡ true }
    ensures { IfOk result (λ least. (v : Value) → allows test.now v ≡ true → is_lt (value_order v least) ≡ false) }
{
    match (test.op, &test.value) {
        (Op::Gt, Value::Int(n)) => Ok(Value::Int(n.saturating_add(1))),
        (_, value) => value.copy(alloc),
    }
}

/// Returns a value above all those that pass a test.
fn end_of(alloc: Global, test: &Test) -> Result<Value, NoMemory>
    requires { bounds High test.now.op ≡ true }
    ensures { IfOk result (λ end'. (v : Value) → allows test.now v ≡ true → value_order v end' ≡ Less) }
{
    if test.op == Op::Lt {
        test.value.copy(alloc)
    } else {
        value_above(alloc, &test.value)
    }
}

/// Copies these values, and adds one more at the end.
fn key_with(alloc: Global, front: &[Value], last: Value) -> Result<Key, NoMemory>
    ensures { IfOk result (λ key. key ≡ front.now ++ last ∷ []) }
{
    let mut key = key_from(alloc, front)?;
    key.push(alloc, last)?;
    Ok(key)
}

/// Returns a key above all that begin with these values, or none if there are no values.
fn key_above(alloc: Global, front: &[Value]) -> Result<Option<Key>, NoMemory>
    ensures { IfOk result (λ high. (key : List Value) → Agrees key front.now → is_past high key ≡ false) }
{
    match front.split_last() {
        None => Ok(None),
        Some((last, first)) => {
            let above = value_above(alloc, last)?;
            Ok(Some(key_with(alloc, first, above)?))
        }
    }
}

/// Returns a key above all that the tests admit, or none if the tests set no upper bound.
fn high_end(alloc: Global, tests: &[Test], front: &[Value]) -> Result<Option<Key>, NoMemory>
    ensures { IfOk result (λ high. (key : List Value) → Admits tests.now key → Agrees key front.now → is_past high key ≡ false) }
{
    match test_at(tests, front.len(), Side::High) {
        None => key_above(alloc, front),
        Some(test) => {
            let end = end_of(alloc, test)?;
            Ok(Some(key_with(alloc, front, end)?))
        }
    }
}

/// Drops zeros from the end. A key may end before them, since a missing column counts as 0.
fn without_last_zeros(front: List<Value>) -> List<Value>
    ensures { (key : List Value) → Agrees key front → is_le (key_order result key) ≡ true }
{
    let mut keep = 0;
    for (i, value) in front.as_slice().iter().enumerate() {
        if !value.is(&Value::Int(0)) {
            keep = i + 1;
        }
    }
    let mut front = front;
    front.truncate(keep);
    front
}

/// Returns a lower bound above 0 of the values that the tests admit at a place of the key, if they set one.
fn least_at(alloc: Global, tests: &[Test], place: usize) -> Result<Option<Value>, NoMemory>
    ensures least { IfOk result (λ least. IfSome least (λ v. (key : List Value) → Admits tests.now key → is_lt (value_order (column_of key place) v) ≡ false)) }
    ensures above { IfOk result (λ least. IfSome least (λ v. value_order (Int (pos 0)) v ≡ Less)) }
{
    let Some(test) = test_at(tests, place, Side::Low) else {
        return Ok(None);
    };
    let least = least_of(alloc, test)?;
    if Value::Int(0).order(&least).is_lt() {
        Ok(Some(least))
    } else {
        Ok(None)
    }
}

/// Returns a key that isn't above any that the tests admit.
fn low_end(alloc: Global, tests: &[Test], front: List<Value>) -> Result<Key, NoMemory>
    ensures { IfOk result (λ low. (key : List Value) → Admits tests.now key → Agrees key front → is_le (key_order low key) ≡ true) }
{
    match least_at(alloc, tests, front.len())? {
        None => {
            let front = without_last_zeros(front);
            Ok(key_from(alloc, front.as_slice())?)
        }
        Some(least) => Ok(key_with(alloc, front.as_slice(), least)?),
    }
}

impl Span {
    /// Returns the span from one key to another. It is empty if the first is above the second.
    fn between(alloc: Global, low: Key, high: Option<Key>) -> Result<Span, NoMemory>
        ensures forward { IfOk result IsForward }
        ensures same { IfOk result (λ span. (key : List Value) → is_le (key_order low key) ≡ true → is_past high key ≡ false → is_within span key ≡ true) }
    {
        if let Some(end) = &high {
            if low.order(end).is_gt() {
                let high = Some(low.copy(alloc)?);
                return Ok(Span { low, high });
            }
        }
        Ok(Span { low, high })
    }

    /// Returns a span that contains each key that the tests admit. `=` fixes the first columns of the key. `<`, `<=`,
    /// `>` and `>=` bound the key column after these. Takes time linear in the size of these values, and in the number
    /// of tests for each. Fails if memory runs out.
    pub fn of(alloc: Global, tests: &[Test]) -> Result<Span, NoMemory>
        ensures covers { IfOk result (CoversAdmitted tests.now) }
        ensures forward { IfOk result IsForward }
    {
        let front = first_values(alloc, tests)?;
        let high = high_end(alloc, tests, front.as_slice())?;
        let low = low_end(alloc, tests, front)?;
        Span::between(alloc, low, high)
    }

    /// Whether the key is below the end of the span.
    fn is_before_end(&self, key: &Key) -> bool
        ensures { result ≡ not (is_past self.now.high key.now) }
    {
        match &self.high {
            None => true,
            Some(high) => high.order(key).is_gt(),
        }
    }

    /// Returns the rows whose keys are in the span. The rows must be in key order. Takes time logarithmic in their
    /// number.
    pub fn part<'a>(&self, rows: &'a [Keyed]) -> &'a [Keyed]
        requires forward { IsForward self.now }
        requires rising { IsRising rows.now }
        ensures part { result.now ≡ filter (λ item. is_within self.now item.key) rows.now }
        ensures finds { (tests : List Test) → CoversAdmitted tests self.now → FindsAll tests rows.now result.now }
    {
        let from = rows.partition_point(
            |item: &Keyed| -> bool
                ensures { result ≡ not (is_le (key_order self.entry.now.low item.now.key)) }
            { self.low.order(&item.key).is_gt() },
        );
        let to = rows.partition_point(
            |item: &Keyed| -> bool
                ensures { result ≡ not (is_past self.entry.now.high item.now.key) }
            { self.is_before_end(&item.key) },
        );
        part(rows, from, to)
    }
}

/// Returns the rows from one place up to another.
fn part(rows: &[Keyed], from: usize, to: usize) -> &[Keyed]
    requires order { from ≤ to }
    requires within { to ≤ length rows.now }
    ensures { result.now ≡ slice_range rows.now from to }
{
    &rows[from..to]
}
