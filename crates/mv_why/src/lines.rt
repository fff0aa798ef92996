//! The lines of a repair.

ghost use Rattle.std.specs.Prelude.{◌≡◌, ◌++◌, codes, slice_get, OnOk};
ghost use Rattle.std.specs.List.{join_by};
ghost use Rattle.std.specs.Option.{option_and_then, option_copied};
ghost use Rattle.mv_why.specs.Causes.{changes_since};
ghost use Rattle.mv_why.specs.Laws.{AreFullRuns};
ghost use Rattle.mv_why.specs.Text.{record_text, name_of, change_text, reason_text, cause_text, causes_text, head_text, repair_text};

use crate::cause::{Cause, Reason};
use crate::causes::causes_along;
use crate::paths::{Path, item};
use crate::run::runs_of;
use itoa::{Buffer, Integer};
use mv_changes::recent::Committed;
use mv_eval::line::line_from;
use mv_log::records::Records;
use mv_values::list::List;
use mv_values::memory::NoMemory;
use mv_values::schema::TableInfo;
use mv_values::value::Key;
use std::alloc::Global;

/// A repair of a call: a new run at a new start, made from the run at the old start.
#[derive(Drop)]
pub struct Repair<'a> {
    /// The tables of the script.
    pub tables: &'a [TableInfo],
    /// The number of the call.
    pub call: u32,
    /// The new start.
    pub start: u32,
    /// The records of the old run.
    pub old: Records<'a>,
    /// The records of the new run.
    pub fresh: Records<'a>,
    /// The commits from the old start to the new one, in the order of their numbers.
    pub since: &'a [Committed],
}

/// What names in a line stand for: the tables, and the paths of the records of both runs.
#[derive(Clone, Copy)]
struct Names<'a> {
    tables: &'a [TableInfo],
    old: &'a [Path],
    fresh: &'a [Path],
}

/// Adds a number in decimal.
fn write_number<I: Integer>(number: I, text: &mut List<u8>) -> Result<(), NoMemory>
    ensures { OnOk result (text.new ≡ text.old ++ I.text number) }
{
    let mut digits = Buffer::new();
    text.append(digits.format(number).as_bytes())
}

/// Adds numbers, joined by dots.
fn write_numbers<I: Integer + Copy>(numbers: &[I], text: &mut List<u8>) -> Result<(), NoMemory>
    ensures { OnOk result (text.new ≡ text.old ++ join_by I.text (codes ".") numbers.now) }
{
    let [first, rest @ ..] = numbers else {
        return Ok(());
    };
    write_number(*first, text)?;
    for number in rest {
        text.push(b'.')?;
        write_number(*number, text)?;
    }
    Ok(())
}

/// Lends the path of the record with this number, if there are both.
fn path_at(paths: &[Path], number: Option<usize>) -> Option<&Path>
    ensures { option_copied result ≡ option_and_then (slice_get paths.now) number }
{
    match number {
        None => None,
        Some(number) => item(paths, number),
    }
}

/// Adds the path of the record with this number, or `default` if there is none.
fn write_record(paths: &[Path], number: Option<usize>, text: &mut List<u8>) -> Result<(), NoMemory>
    ensures { OnOk result (text.new ≡ text.old ++ record_text paths.now number) }
{
    match path_at(paths, number) {
        None => text.append(b"default"),
        Some(path) => write_numbers(path.as_slice(), text),
    }
}

/// Lends the name of a table.
fn name_of(tables: &[TableInfo], table: u8) -> &[u8]
    ensures { result.now ≡ name_of (slice_get tables.now table) }
{
    match tables.get(table as usize) {
        None => &[],
        Some(table) => table.name.as_slice(),
    }
}

/// Adds the number of a commit, and the table and the key of its change.
fn write_change(
    alloc: Global,
    commit: u32,
    table: &[u8],
    key: &Key,
    text: &mut List<u8>,
) -> Result<(), NoMemory>
    ensures { OnOk result (text.new ≡ text.old ++ change_text commit table.now key.now) }
{
    write_number(commit, text)?;
    text.push(b' ')?;
    text.append(table)?;
    text.push(b' ')?;
    let values = key.values(alloc)?;
    let line = line_from(alloc, values.as_slice())?;
    text.append(line.as_slice())
}

/// Adds a reason.
fn write_reason(
    alloc: Global,
    names: &Names<'_>,
    reason: &Reason,
    text: &mut List<u8>,
) -> Result<(), NoMemory>
    ensures { OnOk result (text.new ≡ text.old ++ reason_text names.now.tables.now names.now.old.now names.now.fresh.now reason.now) }
{
    match reason {
        Reason::New => text.append(b"new"),
        Reason::Controller { parent } => {
            text.append(b"controller ")?;
            write_record(names.fresh, Some(*parent), text)
        }
        Reason::Reads { old, fresh } => {
            text.append(b"reads ")?;
            write_record(names.old, *old, text)?;
            text.push(b' ')?;
            write_record(names.fresh, *fresh, text)
        }
        Reason::Hit { commit, table, key } => {
            text.append(b"hit ")?;
            write_change(alloc, *commit, name_of(names.tables, *table), key, text)
        }
        Reason::Touched { path } => {
            text.append(b"touched ")?;
            write_numbers(path.as_slice(), text)
        }
    }
}

/// Adds the path of an executed record, and the reason.
fn write_cause(
    alloc: Global,
    names: &Names<'_>,
    cause: &Cause,
    text: &mut List<u8>,
) -> Result<(), NoMemory>
    ensures { OnOk result (text.new ≡ text.old ++ cause_text names.now.tables.now names.now.old.now names.now.fresh.now cause.now) }
{
    write_record(names.fresh, Some(cause.number), text)?;
    text.push(b' ')?;
    write_reason(alloc, names, &cause.reason, text)
}

/// Adds a line for each cause.
fn write_causes(
    alloc: Global,
    names: &Names<'_>,
    causes: &[Cause],
    text: &mut List<u8>,
) -> Result<(), NoMemory>
    ensures { OnOk result (text.new ≡ text.old ++ causes_text names.now.tables.now names.now.old.now names.now.fresh.now causes.now) }
{
    for cause in causes {
        write_cause(alloc, names, cause, text)?;
        text.push(b'\n')?;
    }
    Ok(())
}

/// Adds the line that names the call and its new start.
fn write_head(call: u32, start: u32, text: &mut List<u8>) -> Result<(), NoMemory>
    ensures { OnOk result (text.new ≡ text.old ++ head_text call start) }
{
    text.append(b"why ")?;
    write_number(call, text)?;
    text.append(b" start ")?;
    write_number(start, text)?;
    text.push(b'\n')
}

/// Adds the lines of a repair: one with its call and its new start, and one for each executed record, with the record's
/// path and the reason. Both runs are full runs of the call, and the commits lead from the old run's database to the new
/// one's. If memory runs out, the text may end with a part of them. Costs what `causes` does.
pub fn write_repair(alloc: Global, repair: &Repair<'_>, text: &mut List<u8>) -> Result<(), NoMemory>
    requires { AreFullRuns repair.now.old repair.now.fresh (changes_since repair.now.since.now) }
    ensures { OnOk result (text.new ≡ text.old ++ repair_text repair.now.tables.now repair.now.call repair.now.start repair.now.old repair.now.fresh repair.now.since.now) }
{
    let runs = runs_of(alloc, &repair.old, &repair.fresh, repair.since)?;
    let causes = causes_along(alloc, &runs)?;
    let names = Names {
        tables: repair.tables,
        old: runs.old.paths.as_slice(),
        fresh: runs.fresh.paths.as_slice(),
    };
    write_head(repair.call, repair.start, text)?;
    write_causes(alloc, &names, causes.as_slice(), text)
}
