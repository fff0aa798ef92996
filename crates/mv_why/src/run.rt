//! Full runs with their paths.

ghost use Rattle.std.specs.Prelude.{◌≡◌, IfOk};
ghost use Rattle.mv_record.specs.Paths.{paths};
ghost use Rattle.mv_why.specs.Walking.{AreOf};

use crate::hits::own_writes;
use crate::paths::{Path, paths_of};
use mv_changes::recent::Committed;
use mv_log::records::Records;
use mv_undo::own_writes::OwnWrites;
use mv_values::list::List;
use mv_values::memory::NoMemory;
use std::alloc::Global;

/// A full run: its records and their paths.
#[derive(Drop)]
pub(crate) struct Run<'a> {
    pub(crate) records: Records<'a>,
    pub(crate) paths: List<Path>,
}

/// The two runs of a call, the writes of the old one, and the commits between them.
#[derive(Drop)]
pub(crate) struct Runs<'a> {
    pub(crate) old: Run<'a>,
    pub(crate) fresh: Run<'a>,
    pub(crate) undo: OwnWrites,
    pub(crate) since: &'a [Committed],
}

/// Lends the same records.
#[tactic(auto, using(std::proofs::lemmas::List::take_all))]
fn all<'a>(records: &Records<'a>) -> Records<'a>
    ensures { result ≡ records.now }
{
    records.first(records.len())
}

/// Returns a run of these records.
fn run_of<'a>(alloc: Global, records: &Records<'a>) -> Result<Run<'a>, NoMemory>
    ensures { IfOk result (λ run. run ≡ record { records = records.now; paths = paths records.now }) }
{
    let paths = paths_of(alloc, records)?;
    Ok(Run {
        records: all(records),
        paths,
    })
}

/// Returns the two runs of a call.
pub(crate) fn runs_of<'a>(
    alloc: Global,
    old: &Records<'a>,
    fresh: &Records<'a>,
    since: &'a [Committed],
) -> Result<Runs<'a>, NoMemory>
    ensures { IfOk result (λ runs. AreOf old.now fresh.now since.now runs) }
{
    let undo = own_writes(alloc, old)?;
    let old = run_of(alloc, old)?;
    let fresh = run_of(alloc, fresh)?;
    Ok(Runs {
        old,
        fresh,
        undo,
        since,
    })
}
