//! The paths of records.

ghost use Rattle.std.specs.Prelude.{◌≡◌, ◌<◌, ◌+◌, ℕ, ◌++◌, ◌∷◌, [], List as Seq, drop, length, nat_lt, slice_get, take, IfOk, OnOk, if◌then◌else◌};
ghost use Rattle.std.specs.Option.{option_and_then, option_copied};
ghost use Rattle.std.specs.Ordering.{is_lt, nat_cmp};
ghost use Rattle.std.specs.Cmp.Lexicographic.{slice_cmp};
ghost use Rattle.mv_record.specs.Paths.{inside, nests_behind, paths};
ghost use Rattle.mv_history.specs.Kept.{is_path};
ghost use Rattle.mv_why.specs.Walking.{path_behind};

use mv_log::records::Records;
use mv_values::list::List;
use mv_values::memory::NoMemory;
use smallvec::SmallVec;
use std::alloc::Global;
use std::marker::Model;

/// The path of a record: the number and the iteration of each enclosing FOR, and the number of its statement. In up to
/// two FORs it allocates nothing.
#[derive(Drop)]
pub(crate) struct Path {
    numbers: SmallVec<u32, 5>,
}

impl Model for Path {
    ghost use Rattle.std.specs.Prelude.{ℕ, List as Seq};

    ghost Value = { Seq ℕ };

    ghost view = { λ p. p.numbers.items };
}

/// Returns the same numbers in eight bytes each.
fn widened(alloc: Global, numbers: &[u32]) -> Result<List<usize>, NoMemory>
    ensures { IfOk result (λ list. list ≡ numbers.now) }
{
    let mut list = List::with_room(alloc, numbers.len())?;
    for number in numbers {
        list.push(*number as usize)?;
    }
    Ok(list)
}

impl Path {
    fn new(alloc: Global) -> Path
        ensures { result ≡ [] }
    {
        Path {
            numbers: SmallVec::new(alloc),
        }
    }

    /// Returns the numbers. Fails if memory runs out.
    pub(crate) fn numbers(&self, alloc: Global) -> Result<List<usize>, NoMemory>
        ensures { IfOk result (λ numbers. numbers ≡ self.now) }
    {
        widened(alloc, self.as_slice())
    }

    /// Borrows the numbers.
    pub(crate) fn as_slice(&self) -> &[u32]
        ensures { result.now ≡ self.now }
    {
        self.numbers.as_slice()
    }

    fn push(&mut self, number: u32) -> Result<(), NoMemory>
        ensures { OnOk result (self.new ≡ self.old ++ number ∷ []) }
    {
        self.numbers.push(number)?;
        Ok(())
    }

    fn append(&mut self, numbers: &[u32]) -> Result<(), NoMemory>
        ensures { OnOk result (self.new ≡ self.old ++ numbers.now) }
    {
        self.numbers.extend_from_slice(numbers)?;
        Ok(())
    }
}

/// Returns the item at an index, if there is one.
pub(crate) fn item<T>(items: &[T], at: usize) -> Option<&T>
    ensures { option_copied result ≡ slice_get items.now at }
{
    items.get(at)
}

/// Whether two paths are equal.
pub(crate) fn is_path(a: &[u32], b: &[u32]) -> bool
    ensures { result ≡ is_path a.now b.now }
{
    a.cmp(b).is_eq()
}

/// Whether the first path is earlier in a program.
pub(crate) fn is_earlier(a: &[u32], b: &[u32]) -> bool
    ensures { result ≡ is_lt (slice_cmp nat_cmp a.now b.now) }
{
    a.cmp(b).is_lt()
}

/// Returns the part of a path from the enclosing statements. The innermost of these has a path, and is in `depth` FORs;
/// `turns` has the iterations of the statement itself.
fn around(alloc: Global, path: &[u32], depth: usize, turns: &[u32]) -> Result<Path, NoMemory>
    ensures { IfOk result (λ p. (outer : Seq ℕ) (n : ℕ) → path.now ≡ outer ++ n ∷ [] → p ≡ (if nat_lt depth (length turns.now) then outer ++ n ∷ drop depth turns.now else outer)) }
{
    let mut part = Path::new(alloc);
    if depth < turns.len() {
        part.append(path)?;
        part.append(&turns[depth..])?;
    } else {
        let len = path.len().saturating_sub(1);
        part.append(&path[..len])?;
    }
    Ok(part)
}

/// Returns the part of a path from the enclosing statements, given the number of the innermost one's record. The first
/// records have the `known` paths.
fn around_of(
    alloc: Global,
    records: &Records<'_>,
    known: &[Path],
    parent: Option<u32>,
    turns: &[u32],
) -> Result<Path, NoMemory>
    requires { known.now ≡ paths records.now }
    ensures { IfOk result (λ p. p ≡ inside (option_and_then (slice_get (nests_behind [] records.now)) parent) turns.now) }
{
    let Some(number) = parent else {
        return Ok(Path::new(alloc));
    };
    let Some(path) = known.get(number as usize) else {
        return Ok(Path::new(alloc));
    };
    let holder = records.get(number as usize);
    let part = around(alloc, path.as_slice(), holder.turns().len(), turns)?;
    Ok(part)
}

/// Returns the path of the record of this statement in these iterations, given the number of its controller. The records
/// before it have the `known` paths.
fn path_of(
    alloc: Global,
    records: &Records<'_>,
    known: &[Path],
    statement: u16,
    turns: &[u32],
    parent: Option<u32>,
) -> Result<Path, NoMemory>
    requires { known.now ≡ paths records.now }
    ensures { IfOk result (λ p. p ≡ path_behind records.now (record { statement = statement; turns = turns.now }) parent) }
{
    let mut path = around_of(alloc, records, known, parent, turns)?;
    path.push(statement as u32)?;
    Ok(path)
}

/// Returns the path of the record with this number. The records before it have the `known` paths.
fn path_at(
    alloc: Global,
    records: &Records<'_>,
    number: usize,
    known: &[Path],
) -> Result<Path, NoMemory>
    requires within { number < length records.now }
    requires known { known.now ≡ paths (take number records.now) }
    ensures { IfOk result (λ p. known.now ++ p ∷ [] ≡ paths (take (number + 1) records.now)) }
{
    let record = records.get(number);
    let path = path_of(
        alloc,
        &records.first(number),
        known,
        record.statement(),
        record.turns(),
        record.parent(),
    )?;
    Ok(path)
}

/// Returns the paths of the records of a run.
pub(crate) fn paths_of(alloc: Global, records: &Records<'_>) -> Result<List<Path>, NoMemory>
    ensures { IfOk result (λ ps. ps ≡ paths records.now) }
{
    let mut all = List::with_room(alloc, records.len())?;
    for number in 0..records.len() {
        let path = path_at(alloc, records, number, all.as_slice())?;
        all.push(path)?;
    }
    Ok(all)
}
