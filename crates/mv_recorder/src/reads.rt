//! The records that set the variables that statements read.

ghost use Rattle.std.specs.Prelude.{◌≡◌, IfOk, map};
ghost use Rattle.mv_catalog.specs.declared.resolved.RStmt.{out-RStmt};
ghost use Rattle.mv_recorded.specs.Reading.{expressions, last_place, loop_of, sets_variable, definer, reads_of};
ghost use Rattle.mv_recorder.specs.Sites.{loop_in, site_of};

use crate::sites::{Loop, Site};
use mv_catalog::resolved::RStmt;
use mv_record::record::{Read, Record};
use mv_recorded::reads::reads;
use mv_values::list::List;
use mv_values::memory::NoMemory;
use std::alloc::Global;

/// Returns the record of the loop with this row, if there is one around.
fn loop_of(loops: &[Loop], x: u16) -> Option<usize>
    ensures { result ≡ loop_of x (map loop_in loops.now) }
{
    for around in loops {
        if around.row == x {
            return Some(around.number);
        }
    }
    None
}

/// Whether a record sets the variable.
fn sets(one: &Record, x: u16) -> bool
    ensures { result ≡ sets_variable x one.now }
{
    one.sets.as_slice().iter().any(|slot| slot.slot == x)
}

/// Returns the number of the last record that sets the variable, if there is one. Looks from the last record on.
fn last_setter(records: &[Record], x: u16) -> Option<usize>
    ensures { result ≡ last_place (sets_variable x) 0 records.now }
{
    let mut left = records.len();
    while 0 < left {
        left -= 1;
        if sets(&records[left], x) {
            return Some(left);
        }
    }
    None
}

/// Returns the number of the record that last set the variable, if there is one.
fn definer(loops: &[Loop], records: &[Record], x: u16) -> Option<usize>
    ensures { result ≡ definer (map loop_in loops.now) records.now x }
{
    match loop_of(loops, x) {
        Some(number) => Some(number),
        None => last_setter(records, x),
    }
}

/// Returns what a statement reads at a site, after these records. The first `params` variables are parameters, which
/// are left out.
pub(crate) fn reads_of(
    alloc: Global,
    params: usize,
    statement: &RStmt,
    site: &Site,
    records: &[Record],
) -> Result<List<Read>, NoMemory>
    ensures { IfOk result (λ reads. reads ≡ reads_of params (site_of site.now).loops records.now (expressions (out-RStmt statement.now))) }
{
    let variables = reads(alloc, params, statement)?;
    let mut reads = List::with_room(alloc, variables.len())?;
    for x in variables.as_slice() {
        let definer = definer(site.loops.as_slice(), records, *x);
        reads.push(Read { slot: *x, definer })?;
    }
    Ok(reads)
}
