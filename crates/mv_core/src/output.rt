//! The output of a call, by its records: its reply, and what it changes.

ghost use Rattle.std.specs.Prelude.{◌≡◌, count_by, false, length, IfOk, OnOk, OnErr};
ghost use Rattle.std.specs.Option.{is_some, option_copied};
ghost use Rattle.mv_values.specs.Patching.{applied};
ghost use Rattle.mv_record.specs.Writes.{AreRising};
ghost use Rattle.mv_history.specs.Changes.{changes_between};
ghost use Rattle.mv_record.specs.Runs.{end_in, lines_in, writes_in};
ghost use Rattle.mv_view.specs.Viewing.{MayAnswer};
ghost use Rattle.mv_store.specs.Changes.{HasPut, HasDropped};
ghost use Rattle.mv_core.specs.Output.{reply_told, writes_told};

use mv_changes::changes::Changes;
use mv_changes::commit::changes_of_commit;
use mv_log::records::Records;
use mv_store::store::Store;
use mv_values::calls::{End, Reply};
use mv_values::copied::Copied;
use mv_values::list::List;
use mv_values::memory::NoMemory;
use mv_values::txt::Txt;
use mv_view::view::{Refused, View};
use std::alloc::Global;

/// Returns the first end that a record has.
fn end_of<'a>(records: &Records<'a>) -> Option<&'a End>
    ensures { option_copied result ≡ end_in records.now }
{
    for number in 0..records.len() {
        if let Some(end) = records.get(number).end() {
            return Some(end);
        }
    }
    None
}

/// Returns the number of records that have a line.
fn line_count(records: &Records<'_>) -> usize
    ensures { result ≡ count_by (λ r. is_some r.line) records.now }
{
    let mut count = 0;
    for number in 0..records.len() {
        if records.get(number).line().is_some() {
            count += 1;
        }
    }
    count
}

/// Copies the lines of records.
fn lines_of(alloc: Global, records: &Records<'_>) -> Result<List<Txt>, NoMemory>
    ensures { IfOk result (λ lines. lines ≡ lines_in records.now) }
{
    let mut lines = List::with_room(alloc, line_count(records))?;
    for number in 0..records.len() {
        if let Some(line) = records.get(number).line() {
            lines.push(line.copy(alloc)?)?;
        }
    }
    Ok(lines)
}

/// Returns the reply of a call with these records: their lines, or the first end alone.
pub fn reply_of(alloc: Global, records: &Records<'_>) -> Result<Reply, NoMemory>
    ensures { IfOk result (λ reply. reply ≡ reply_told records.now) }
{
    match end_of(records) {
        Some(end) => Ok(Reply {
            lines: List::new(alloc),
            end: Some(end.copy(alloc)?),
        }),
        None => Ok(Reply {
            lines: lines_of(alloc, records)?,
            end: None,
        }),
    }
}

/// Puts the writes of records for a call, one record after another. If memory runs out, the call has no writes.
fn put_all(
    alloc: Global,
    store: &mut Store,
    call: u32,
    records: &Records<'_>,
) -> Result<(), NoMemory>
    ensures ok { OnOk result (HasPut call (writes_in records.now) store.old store.new) }
    ensures err { OnErr result (HasDropped call store.old store.new) }
{
    for number in 0..records.len() {
        store.put_all(alloc, call, records.get(number).writes())?;
    }
    Ok(())
}

/// Returns the records whose writes count: all, or none if one of them ends the call.
#[tactic(auto, using(std::proofs::lemmas::List::take_all))]
fn counted<'a>(records: &Records<'a>) -> Records<'a>
    ensures { writes_in result ≡ writes_told records.now }
{
    match end_of(records) {
        Some(_) => records.first(0),
        None => records.first(records.len()),
    }
}

/// Puts the writes of a call with these records. If memory runs out, the call has no writes.
pub(crate) fn put_told(
    alloc: Global,
    store: &mut Store,
    call: u32,
    records: &Records<'_>,
) -> Result<(), NoMemory>
    ensures ok { OnOk result (HasPut call (writes_told records.now) store.old store.new) }
    ensures err { OnErr result (HasDropped call store.old store.new) }
{
    put_all(alloc, store, call, &counted(records))
}

/// Returns the changes that a call with these records makes to a view's database, which has this many tables. Fails with
/// `NoMemory` if memory runs out, and with `Stale` if the view reports it.
pub fn changes_told<'s, V: View<'s>>(
    alloc: Global,
    tables: usize,
    records: &Records<'_>,
    view: &mut V,
) -> Result<Changes, Refused>
    requires tables { tables ≡ length (V.sight view.old).database }
    requires rising { AreRising (V.sight view.old).database }
    ensures changes { IfOk result (λ changes. changes ≡ changes_between (V.sight view.old).database (applied (writes_told records.now) (V.sight view.old).database)) }
    ensures stale { MayAnswer (V.sight view.old) (V.sight view.new) result }
{
    changes_of_commit(alloc, tables, &counted(records), view)
}
