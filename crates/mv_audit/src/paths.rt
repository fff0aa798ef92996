//! The paths of records.

ghost use Rattle.std.specs.Prelude.{◌≡◌, ◌∷◌, ◌++◌, [], IfOk, map, slice_get};
ghost use Rattle.std.specs.Option.{option_copied, option_map, option_and_then};
ghost use Rattle.mv_record.specs.Paths.{inside, nest_of, path, paths};
ghost use Rattle.mv_audit.specs.Comparing.{nest_in};

use mv_record::record::{Record, Spot};
use mv_values::copied::Copied;
use mv_values::list::List;
use mv_values::memory::NoMemory;
use std::alloc::Global;

/// The position of a record, and the number and the iteration of each FOR around it.
#[derive(Drop)]
pub(crate) struct Nest {
    pub around: List<usize>,
    pub spot: Spot,
}

/// Returns the part of a path from the statements around it, given the innermost one and the iterations.
fn around(alloc: Global, holder: Option<&Nest>, turns: &[usize]) -> Result<List<usize>, NoMemory>
    ensures { IfOk result (λ all. all ≡ inside (option_map nest_in (option_copied holder.entry)) turns.now) }
{
    let Some(holder) = holder else {
        return Ok(List::new(alloc));
    };
    let mut all = holder.around.copy(alloc)?;
    let outer = holder.spot.turns.len();
    if outer < turns.len() {
        all.push(holder.spot.statement as usize)?;
        all.append(&turns[outer..])?;
    }
    Ok(all)
}

/// Returns the item at an index, if there is one.
pub(crate) fn item<T>(items: &[T], at: usize) -> Option<&T>
    ensures { option_copied result ≡ slice_get items.now at }
{
    items.get(at)
}

/// Returns the nest that a record is in directly.
#[tactic(auto, using(crate::proofs::Keeping::nest_got))]
fn holder_of<'a>(nests: &'a [Nest], record: &Record) -> Option<&'a Nest>
    ensures { option_map nest_in (option_copied result) ≡ option_and_then (slice_get (map nest_in nests.now)) record.now.parent }
{
    match record.parent {
        None => None,
        Some(number) => item(nests, number),
    }
}

/// Returns the nest of a record after those with these nests.
fn nest_of(alloc: Global, nests: &[Nest], record: &Record) -> Result<Nest, NoMemory>
    ensures { IfOk result (λ nest. nest_in nest ≡ nest_of (map nest_in nests.now) record.now) }
{
    let turns = record.spot.turns.as_slice();
    let around = around(alloc, holder_of(nests, record), turns)?;
    let spot = record.spot.copy(alloc)?;
    Ok(Nest { around, spot })
}

/// Returns the path of a record with this nest.
fn path_of(alloc: Global, nest: &Nest) -> Result<List<usize>, NoMemory>
    ensures { IfOk result (λ all. all ≡ path (nest_in nest.now)) }
{
    let mut all = nest.around.copy(alloc)?;
    all.push(nest.spot.statement as usize)?;
    Ok(all)
}

/// Returns the paths of a run's records.
pub(crate) fn paths_of(alloc: Global, records: &[Record]) -> Result<List<List<usize>>, NoMemory>
    ensures { IfOk result (λ all. all ≡ paths records.now) }
{
    let mut all = List::with_room(alloc, records.len())?;
    let mut nests = List::with_room(alloc, records.len())?;
    for record in records {
        let nest = nest_of(alloc, nests.as_slice(), record)?;
        all.push(path_of(alloc, &nest)?)?;
        nests.push(nest)?;
    }
    Ok(all)
}
