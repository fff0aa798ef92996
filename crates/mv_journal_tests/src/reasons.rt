//! Why a repair executes a record, found from two full runs: the reason that is named must be the first point of the rule
//! that the record fails.

use crate::hits::{Place, hits_of};
use crate::kept::{
    Twin, TwoRuns, are_reads_kept, executed, is_held, is_hit, is_same_definer, is_touched, twin_at,
    twins_of,
};
use mv_record::record::{Read, Record};
use mv_values::list::List;
use mv_values::memory::NoMemory;
use mv_why::cause::{Cause, Reason};
use std::alloc::Global;
use std::cmp::Ordering;

// Variables

/// Whether these are the definers of the first variable that doesn't stay.
fn is_first_read(
    kept: &[Option<usize>],
    reads: (&[Read], &[Read]),
    definers: (Option<usize>, Option<usize>),
) -> bool {
    let (old, new) = reads;
    for (old, new) in old.iter().zip(new) {
        if !is_same_definer(kept, old.definer, new.definer) {
            return old.definer == definers.0 && new.definer == definers.1;
        }
    }
    false
}

// Hits

/// Compares the places of two rows, by table and then by key.
fn order(a: &Place<'_>, b: &Place<'_>) -> Ordering {
    match a.table.cmp(&b.table) {
        Ordering::Equal => a.key.order(&b.key),
        order => order,
    }
}

/// Whether this place is among these, and none of them is less.
fn is_least(places: &[Place<'_>], place: &Place<'_>) -> bool {
    let mut is_there = false;
    for other in places {
        match order(other, place) {
            Ordering::Less => return false,
            Ordering::Equal => is_there = true,
            Ordering::Greater => {}
        }
    }
    is_there
}

/// Whether this is the first commit between the two runs that hits a record of the first, and this is its least row that
/// does.
fn is_least_hit(
    alloc: Global,
    runs: &TwoRuns<'_>,
    twin: &Twin<'_>,
    commit: u32,
    place: &Place<'_>,
) -> Result<bool, NoMemory> {
    for commits in runs.from..runs.to {
        if let Some([before, after, ..]) = runs.points.get(commits as usize..) {
            let places = hits_of(alloc, twin.before, twin.record, before, after)?;
            if !places.is_empty() {
                let is_first = commits.saturating_add(1) == commit;
                return Ok(is_first && is_least(places.as_slice(), place));
            }
        }
    }
    Ok(false)
}

// Paths

/// Returns what the path of a record begins with. It is held by a statement with this path, which is in so many FORs, and
/// has these turns. An IF leaves its own number out of it.
fn path_in(
    alloc: Global,
    holder: &[usize],
    depth: usize,
    turns: &[usize],
) -> Result<List<usize>, NoMemory> {
    let mut path = List::new(alloc);
    if depth < turns.len() {
        path.append(holder)?;
        path.append(&turns[depth..])?;
    } else if let [outer @ .., _] = holder {
        path.append(outer)?;
    }
    Ok(path)
}

/// Returns the path of a record: the number of its statement, with the number and the turn of each FOR around it before.
/// Those of the records before it are known.
fn path_of(
    alloc: Global,
    records: &[Record],
    paths: &[List<usize>],
    record: &Record,
) -> Result<List<usize>, NoMemory> {
    let mut path = List::new(alloc);
    if let Some(parent) = record.parent
        && let (Some(holder), Some(above)) = (records.get(parent), paths.get(parent))
    {
        let depth = holder.spot.turns.len();
        path = path_in(alloc, above.as_slice(), depth, record.spot.turns.as_slice())?;
    }
    path.push(record.spot.statement as usize)?;
    Ok(path)
}

/// Returns the paths of a run's records.
fn paths_of(alloc: Global, records: &[Record]) -> Result<List<List<usize>>, NoMemory> {
    let mut paths = List::new(alloc);
    for record in records {
        let path = path_of(alloc, records, paths.as_slice(), record)?;
        paths.push(path)?;
    }
    Ok(paths)
}

// Touches

/// A record with its path.
#[derive(Clone, Copy)]
struct Other<'r> {
    record: &'r Record,
    path: &'r [usize],
}

/// The records of a run, and their paths.
#[derive(Clone, Copy)]
struct Run<'r> {
    records: &'r [Record],
    paths: &'r [List<usize>],
}

/// Adds the record with this number, if there is one.
fn add<'r>(others: &mut Vec<Other<'r>>, run: &Run<'r>, number: usize) -> Result<(), NoMemory> {
    if let (Some(record), Some(path)) = (run.records.get(number), run.paths.get(number)) {
        let path = path.as_slice();
        others.push(Other { record, path })?;
    }
    Ok(())
}

/// Returns the records of the first run before this number that aren't kept, and those of the second. `kept` has the twins
/// of the second run's records so far.
fn others_of<'r>(
    alloc: Global,
    old: &Run<'r>,
    end: usize,
    new: &Run<'r>,
    kept: &[Option<usize>],
) -> Result<Vec<Other<'r>>, NoMemory> {
    let mut others = Vec::new(alloc);
    for number in 0..end {
        if !kept.contains(&Some(number)) {
            add(&mut others, old, number)?;
        }
    }
    for (number, twin) in kept.iter().enumerate() {
        if twin.is_none() {
            add(&mut others, new, number)?;
        }
    }
    Ok(others)
}

/// Whether one of these records has this path and touches the record, and no other one that does has a lesser path.
fn is_least_touch(others: &[Other<'_>], record: &Record, path: &[usize]) -> bool {
    let mut is_there = false;
    for other in others {
        if is_touched(record, other.record) {
            match other.path.cmp(path) {
                Ordering::Less => return false,
                Ordering::Equal => is_there = true,
                Ordering::Greater => {}
            }
        }
    }
    is_there
}

// Reasons

/// Two full runs of a call, with the paths of their records, and for each record of the second the number of its twin, if
/// it is kept.
#[derive(Drop)]
struct Compared<'r> {
    runs: TwoRuns<'r>,
    old: Run<'r>,
    new: Run<'r>,
    twins: &'r [Option<usize>],
}

/// Whether this is the first point of the rule that a record fails. The first run has a twin of it, and `kept` are the
/// twins of the records before it.
fn is_first_point(
    alloc: Global,
    two: &Compared<'_>,
    kept: &[Option<usize>],
    record: &Record,
    twin: &Twin<'_>,
    reason: &Reason,
) -> Result<bool, NoMemory> {
    let reads = (twin.record.reads.as_slice(), record.reads.as_slice());
    let is_held = is_held(kept, record);
    let is_read = is_held && are_reads_kept(kept, reads.0, reads.1);
    match reason {
        Reason::New => Ok(false),
        Reason::Controller { parent } => Ok(!is_held && record.parent == Some(*parent)),
        Reason::Reads { old, fresh } => Ok(is_held && is_first_read(kept, reads, (*old, *fresh))),
        Reason::Hit { commit, table, key } => {
            let place = Place { table: *table, key };
            Ok(is_read && is_least_hit(alloc, &two.runs, twin, *commit, &place)?)
        }
        Reason::Touched { path } => {
            let is_unhit = is_read && !is_hit(alloc, &two.runs, twin)?;
            let others = others_of(alloc, &two.old, twin.number, &two.new, kept)?;
            Ok(is_unhit && is_least_touch(others.as_slice(), record, path.as_slice()))
        }
    }
}

/// Whether a cause has the reason of its record.
fn is_right(alloc: Global, two: &Compared<'_>, cause: &Cause) -> Result<bool, NoMemory> {
    let number = cause.number;
    let (Some(record), Some(kept)) = (two.runs.new.get(number), two.twins.get(..number)) else {
        return Ok(false);
    };
    match twin_at(&two.runs, record) {
        None => Ok(matches!(cause.reason, Reason::New)),
        Some(twin) => is_first_point(alloc, two, kept, record, &twin, &cause.reason),
    }
}

/// Whether each of these causes has the reason of its record, and their records are those with these numbers.
fn are_right(
    alloc: Global,
    two: &Compared<'_>,
    numbers: &[usize],
    causes: &[Cause],
) -> Result<bool, NoMemory> {
    for (number, cause) in numbers.iter().zip(causes) {
        if cause.number != *number || !is_right(alloc, two, cause)? {
            return Ok(false);
        }
    }
    Ok(numbers.len() == causes.len())
}

/// Whether these are the causes of a repair: the records of the second run that aren't kept, in order, each with the first
/// point of the rule that it fails.
pub(crate) fn are_causes(
    alloc: Global,
    runs: &TwoRuns<'_>,
    causes: &[Cause],
) -> Result<bool, NoMemory> {
    let old = runs.old.unwrap_or(&[]);
    let (old_paths, new_paths) = (paths_of(alloc, old)?, paths_of(alloc, runs.new)?);
    let twins = twins_of(alloc, runs)?;
    let numbers = executed(alloc, twins.as_slice())?;
    let two = Compared {
        runs: *runs,
        old: Run {
            records: old,
            paths: old_paths.as_slice(),
        },
        new: Run {
            records: runs.new,
            paths: new_paths.as_slice(),
        },
        twins: twins.as_slice(),
    };
    are_right(alloc, &two, numbers.as_slice(), causes)
}
