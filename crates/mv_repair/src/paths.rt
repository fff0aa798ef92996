//! The paths of records.

ghost use Rattle.std.specs.Prelude.{◌≡◌, ◌<◌, ◌≤◌, ◌++◌, ◌∷◌, [], Some, drop, length, nat_lt, slice_get, take, IfOk, OnOk, if◌then◌else◌};
ghost use Rattle.std.specs.Option.{option_and_then, option_copied};
ghost use Rattle.std.specs.Ordering.{is_lt, nat_cmp};
ghost use Rattle.std.specs.Cmp.Lexicographic.{slice_cmp};
ghost use Rattle.mv_record.specs.Paths.{inside, nests_behind, paths};
ghost use Rattle.mv_repair.specs.Walking.{path_behind};

use mv_log::records::Records;
use mv_values::memory::NoMemory;
use smallvec::SmallVec;
use std::alloc::Global;
use std::marker::Model;

/// The path of a record: the number and the iteration of each enclosing FOR, and the number of its statement. In up to
/// two FORs it allocates nothing.
#[derive(Drop)]
pub(crate) struct Path {
    numbers: SmallVec<u32, 5>,
}

impl Model for Path {
    ghost use Rattle.std.specs.Prelude.{ℕ, List as Seq};

    ghost Value = { Seq ℕ };

    ghost view = { λ p. p.numbers.items };
}

impl Path {
    fn new(alloc: Global) -> Path
        ensures { result ≡ [] }
    {
        Path {
            numbers: SmallVec::new(alloc),
        }
    }

    /// Borrows the numbers.
    pub(crate) fn as_slice(&self) -> &[u32]
        ensures { result.now ≡ self.now }
    {
        self.numbers.as_slice()
    }

    fn push(&mut self, number: u32) -> Result<(), NoMemory>
        ensures { OnOk result (self.new ≡ self.old ++ number ∷ []) }
    {
        self.numbers.push(number)?;
        Ok(())
    }

    fn append(&mut self, numbers: &[u32]) -> Result<(), NoMemory>
        ensures { OnOk result (self.new ≡ self.old ++ numbers.now) }
    {
        self.numbers.extend_from_slice(numbers)?;
        Ok(())
    }
}

/// Returns the item at an index, if there is one.
pub(crate) fn item<T>(items: &[T], at: usize) -> Option<&T>
    ensures { option_copied result ≡ slice_get items.now at }
{
    items.get(at)
}

/// Whether the first path is earlier in a program.
pub(crate) fn is_earlier(a: &[u32], b: &[u32]) -> bool
    ensures { result ≡ is_lt (slice_cmp nat_cmp a.now b.now) }
{
    a.cmp(b).is_lt()
}

/// Adds the number of a FOR, and the iterations of it and of the FORs inside it: those after the first `depth`. If there
/// are none, the statement is no FOR and adds nothing.
fn push_for(path: &mut Path, statement: u16, depth: usize, turns: &[u32]) -> Result<(), NoMemory>
    ensures { OnOk result (path.new ≡ (if nat_lt depth (length turns.now) then path.old ++ statement ∷ drop depth turns.now else path.old)) }
{
    if depth < turns.len() {
        path.push(statement as u32)?;
        path.append(&turns[depth..])?;
    }
    Ok(())
}

/// Adds the part of a path from the enclosing statements, given the number of the innermost one's record, which is among
/// the first `before` records, and the iterations. Costs a step for each enclosing statement.
fn push_around(
    path: &mut Path,
    records: &Records<'_>,
    before: usize,
    parent: Option<u32>,
    turns: &[u32],
) -> Result<(), NoMemory>
    requires { before ≤ length records.now }
    ensures { OnOk result (path.new ≡ path.old ++ inside (option_and_then (slice_get (nests_behind [] (take before records.now))) parent) turns.now) }
{
    let Some(number) = parent else {
        return Ok(());
    };
    let number = number as usize;
    if number >= before {
        return Ok(());
    }
    let holder = records.get(number);
    push_around(path, records, number, holder.parent(), holder.turns())?;
    push_for(path, holder.statement(), holder.turns().len(), turns)
}

/// Returns the path of the record of this statement in these iterations, given the number of its controller. It comes
/// after the first `before` records.
pub(crate) fn path_of(
    alloc: Global,
    records: &Records<'_>,
    before: usize,
    statement: u16,
    turns: &[u32],
    parent: Option<u32>,
) -> Result<Path, NoMemory>
    requires { before ≤ length records.now }
    ensures { IfOk result (λ p. p ≡ path_behind (take before records.now) (record { statement = statement; turns = turns.now }) parent) }
{
    let mut path = Path::new(alloc);
    push_around(&mut path, records, before, parent, turns)?;
    path.push(statement as u32)?;
    Ok(path)
}

/// Returns the path of the record with this number.
pub(crate) fn path_at(alloc: Global, records: &Records<'_>, number: usize) -> Result<Path, NoMemory>
    requires { number < length records.now }
    ensures { IfOk result (λ p. slice_get (paths records.now) number ≡ Some p) }
{
    let record = records.get(number);
    let path = path_of(
        alloc,
        records,
        number,
        record.statement(),
        record.turns(),
        record.parent(),
    )?;
    Ok(path)
}
