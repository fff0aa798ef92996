//! What records a log has after it was written, cut and repaired, and what its predicates tell, worked out by hand.

use crate::cases::ensure_at;
use crate::values::{key, row};
use mv_log::log::Log;
use mv_log::pred_ref::Preds;
use mv_log::record_ref::RecordRef;
use mv_log::records::Records;
use mv_log::var_read::VarRead;
use mv_record::record::Slot;
use mv_values::calls::End;
use mv_values::op::Op;
use mv_values::patch::{Patch, Write};
use mv_values::pred::Test;
use mv_values::pred_ref::PredRef;
use mv_values::txt::Txt;
use mv_values::value::{Row, Value};
use std::alloc::Global;
use std::test::Fail;

/// What is done to a log.
enum Step {
    Turn(u32),
    Read(u16, Option<u32>),
    Set(u16, i64),
    /// A predicate on a table: the first column is a number, and the second column is selected.
    Ask(u8, i64),
    Row(i64),
    Write(i64),
    Close(u16, Option<u32>),
    /// A record that has a line alone, whatever was pushed before.
    Print(u16),
    /// A record that keeps the predicates that were pushed before, and ends the call.
    End(u16),
    Truncate(u32),
    Clear,
    Repair,
    Adopt(u32, u16, Option<u32>),
    EndRepair,
}

/// What is done, and then the records of the run and those of the run before, as `show` writes them.
type Case = (&'static [Step], &'static str, &'static str);

const RUN: &[Step] = &[
    Step::Read(3, None),
    Step::Set(4, 40),
    Step::Close(1, None),
    Step::Read(4, Some(0)),
    Step::Ask(0, 7),
    Step::Row(70),
    Step::Row(71),
    Step::Close(2, None),
    Step::Turn(1),
    Step::Ask(0, 8),
    Step::Ask(1, 9),
    Step::Set(5, 1),
    Step::Write(8),
    Step::Write(9),
    Step::Close(3, Some(1)),
];

const RECORDS: &str = " #1 r3 s4=40 #2 r4=0 a0=7 f70 f71 #3 p1 t1 a0=8 a1=9 s5=1 w8 w9";

const CASES: &[Case] = &[
    (&[], RECORDS, ""),
    (&[Step::Clear], "", ""),
    (&[Step::Write(1), Step::Truncate(9)], RECORDS, ""),
    (
        &[
            Step::Write(1),
            Step::Turn(6),
            Step::Read(1, None),
            Step::Ask(2, 2),
            Step::Truncate(1),
            Step::Close(4, None),
        ],
        " #1 r3 s4=40 #4",
        "",
    ),
    (
        &[
            Step::Set(1, 1),
            Step::Ask(2, 2),
            Step::Print(4),
            Step::Ask(0, 3),
            Step::Write(3),
            Step::Set(1, 2),
            Step::End(5),
            Step::Repair,
        ],
        "",
        " #1 r3 s4=40 #2 r4=0 a0=7 f70 f71 #3 p1 t1 a0=8 a1=9 s5=1 w8 w9 #4 l #5 a0=3 e",
    ),
    (
        &[
            Step::Repair,
            Step::Read(3, None),
            Step::Adopt(0, 1, None),
            Step::Ask(0, 6),
            Step::Write(6),
            Step::Close(2, None),
            Step::Turn(2),
            Step::Read(4, Some(0)),
            Step::Adopt(2, 3, Some(0)),
        ],
        " #1 r3 s4=40 #2 a0=6 w6 #3 p0 t2 r4=0 a0=8 a1=9 s5=1 w8 w9",
        RECORDS,
    ),
    (
        &[Step::Repair, Step::Adopt(2, 3, None), Step::EndRepair],
        " #3 a0=8 a1=9 s5=1 w8 w9",
        "",
    ),
];

/// Adds a predicate with one test, that the first column is a number.
fn ask(log: &mut Log, table: u8, number: i64) -> Result<(), Fail> {
    log.push_test(Test {
        column: 0,
        key_place: Some(0),
        op: Op::Eq,
        value: Value::Int(number),
    })?;
    log.push_columns(&[1])?;
    Ok(log.push_pred(table)?)
}

/// Adds a deletion of a key.
fn delete(alloc: Global, log: &mut Log, number: i64) -> Result<(), Fail> {
    let key = key(alloc, &[number])?;
    Ok(log.push_write(Write {
        table: 0,
        key,
        patch: Patch::Delete,
    })?)
}

/// Adds a record with an empty line alone.
fn print_line(alloc: Global, log: &mut Log, statement: u16) -> Result<(), Fail> {
    log.drop_effect();
    log.push_line(Txt::new(alloc))?;
    Ok(log.close(statement, None)?)
}

/// Adds a record that ends the call.
fn end_call(log: &mut Log, statement: u16) -> Result<(), Fail> {
    log.keep_preds();
    log.push_end(End::Overflow)?;
    Ok(log.close(statement, None)?)
}

/// Keeps an old record, which must be there, and after those that were kept.
fn adopt(log: &mut Log, old: u32, statement: u16, parent: Option<u32>) -> Result<(), Fail> {
    if old as usize >= log.past().len() || (old as usize) < log.kept() {
        return Err("no such record".into());
    }
    Ok(log.adopt(old, statement, parent)?)
}

fn push(alloc: Global, log: &mut Log, step: &Step) -> Result<(), Fail> {
    match step {
        Step::Turn(turn) => Ok(log.push_turn(*turn)?),
        Step::Read(slot, definer) => Ok(log.push_read(VarRead::of(*slot, *definer))?),
        Step::Set(slot, number) => Ok(log.push_set(Slot {
            slot: *slot,
            value: Value::Int(*number),
        })?),
        Step::Ask(table, number) => ask(log, *table, *number),
        Step::Row(number) => Ok(log.push_row(row(alloc, &[*number])?)?),
        Step::Write(number) => delete(alloc, log, *number),
        _ => Ok(()),
    }
}

fn take_step(alloc: Global, log: &mut Log, step: &Step) -> Result<(), Fail> {
    match step {
        Step::Close(statement, parent) => Ok(log.close(*statement, *parent)?),
        Step::Print(statement) => print_line(alloc, log, *statement),
        Step::End(statement) => end_call(log, *statement),
        Step::Adopt(old, statement, parent) => adopt(log, *old, *statement, *parent),
        Step::Truncate(len) => {
            log.truncate(*len);
            Ok(())
        }
        Step::Clear => {
            log.clear();
            Ok(())
        }
        Step::Repair => {
            log.begin_repair();
            Ok(())
        }
        Step::EndRepair => {
            log.end_repair();
            Ok(())
        }
        _ => push(alloc, log, step),
    }
}

fn take_steps(alloc: Global, log: &mut Log, list: &[Step]) -> Result<(), Fail> {
    for it in list {
        take_step(alloc, log, it)?;
    }
    Ok(())
}

/// Adds a mark and a number.
fn add(alloc: Global, text: &mut String, mark: &str, number: i64) -> Result<(), Fail> {
    Ok(text.push_str(format!(in alloc; " {mark}{number}")?.as_str())?)
}

/// Adds a mark, a number, and a second number.
fn add_two(alloc: Global, text: &mut String, mark: &str, pair: (i64, i64)) -> Result<(), Fail> {
    let (number, second) = pair;
    Ok(text.push_str(format!(in alloc; " {mark}{number}={second}")?.as_str())?)
}

/// Adds a mark and a number, if there is one.
fn add_some(alloc: Global, text: &mut String, mark: &str, number: Option<u32>) -> Result<(), Fail> {
    match number {
        Some(number) => add(alloc, text, mark, number as i64),
        None => Ok(()),
    }
}

fn number_in(value: Option<&Value>) -> i64 {
    match value {
        Some(Value::Int(n)) => *n,
        _ => -1,
    }
}

fn add_turns(alloc: Global, text: &mut String, turns: &[u32]) -> Result<(), Fail> {
    for turn in turns {
        add(alloc, text, "t", *turn as i64)?;
    }
    Ok(())
}

fn add_read(alloc: Global, text: &mut String, read: &VarRead) -> Result<(), Fail> {
    match read.definer() {
        Some(definer) => add_two(alloc, text, "r", (read.slot() as i64, definer as i64)),
        None => add(alloc, text, "r", read.slot() as i64),
    }
}

fn add_reads(alloc: Global, text: &mut String, reads: &[VarRead]) -> Result<(), Fail> {
    for read in reads {
        add_read(alloc, text, read)?;
    }
    Ok(())
}

/// Adds a predicate: its table, and the number that it tests the first column against.
fn add_pred(alloc: Global, text: &mut String, pred: &PredRef<'_>) -> Result<(), Fail> {
    let number = number_in(pred.tests().first().map(|test| &test.value));
    add_two(alloc, text, "a", (pred.table() as i64, number))
}

fn add_preds(alloc: Global, text: &mut String, preds: &Preds<'_>) -> Result<(), Fail> {
    for at in 0..preds.len() {
        add_pred(alloc, text, &preds.get(at))?;
    }
    Ok(())
}

fn add_sets(alloc: Global, text: &mut String, sets: &[Slot]) -> Result<(), Fail> {
    for set in sets {
        add_two(
            alloc,
            text,
            "s",
            (set.slot as i64, number_in(Some(&set.value))),
        )?;
    }
    Ok(())
}

fn add_rows(alloc: Global, text: &mut String, rows: &[Row]) -> Result<(), Fail> {
    for row in rows {
        add(alloc, text, "f", number_in(row.as_slice().first()))?;
    }
    Ok(())
}

fn add_writes(alloc: Global, text: &mut String, writes: &[Write]) -> Result<(), Fail> {
    for write in writes {
        add(alloc, text, "w", write.key.part(0).number().unwrap_or(0))?;
    }
    Ok(())
}

fn add_ending(text: &mut String, record: &RecordRef<'_>) -> Result<(), Fail> {
    if record.line().is_some() {
        text.push_str(" l")?;
    }
    if record.end().is_some() {
        text.push_str(" e")?;
    }
    Ok(())
}

fn add_effect(alloc: Global, text: &mut String, record: &RecordRef<'_>) -> Result<(), Fail> {
    add_preds(alloc, text, &record.preds())?;
    add_sets(alloc, text, record.sets())?;
    add_rows(alloc, text, record.rows())?;
    add_writes(alloc, text, record.writes())
}

fn add_record(alloc: Global, text: &mut String, record: &RecordRef<'_>) -> Result<(), Fail> {
    add(alloc, text, "#", record.statement() as i64)?;
    add_some(alloc, text, "p", record.parent())?;
    add_turns(alloc, text, record.turns())?;
    add_reads(alloc, text, record.reads())?;
    add_effect(alloc, text, record)?;
    add_ending(text, record)
}

/// Returns the records as text. A mark tells each number: `#` a statement, `p` a parent, `t` a turn, `r` a read, `a` a
/// predicate, `s` a variable that is set, `f` a row of a FOR, `w` a write. `l` is a line, and `e` an end.
fn show(alloc: Global, records: &Records<'_>) -> Result<String, Fail> {
    let mut text = String::new(alloc);
    for at in 0..records.len() {
        add_record(alloc, &mut text, &records.get(at))?;
    }
    Ok(text)
}

fn is_as_told(alloc: Global, log: &mut Log, case: &Case) -> Result<bool, Fail> {
    let (more, records, past) = *case;
    log.clear();
    take_steps(alloc, log, RUN)?;
    take_steps(alloc, log, more)?;
    let are_records = show(alloc, &log.records())?.as_str() == records;
    Ok(are_records && show(alloc, &log.past())?.as_str() == past)
}

#[test]
fn a_log_has_the_records_that_were_closed_and_kept(rt: HostRuntime) -> Result<(), Fail> {
    let alloc = rt.alloc();
    let mut log = Log::new(alloc);
    for (i, case) in CASES.iter().enumerate() {
        ensure_at(alloc, is_as_told(alloc, &mut log, case)?, i)?;
    }
    Ok(())
}

const FRONTS: &[(usize, &str)] = &[
    (0, ""),
    (1, " #1 r3 s4=40"),
    (2, " #1 r3 s4=40 #2 r4=0 a0=7 f70 f71"),
    (9, RECORDS),
];

#[test]
fn fronts_end_at_the_last_record(rt: HostRuntime) -> Result<(), Fail> {
    let alloc = rt.alloc();
    let mut log = Log::new(alloc);
    take_steps(alloc, &mut log, RUN)?;
    let records = log.records();
    for (i, (len, want)) in FRONTS.iter().enumerate() {
        ensure_at(
            alloc,
            show(alloc, &records.first(*len))?.as_str() == *want,
            i,
        )?;
    }
    Ok(())
}

/// What is done after the run, a record's number, and the keys that the records below it wrote.
type Own = (&'static [Step], usize, &'static str);

const OWN: &[Own] = &[
    (&[], 2, ""),
    (&[], 3, " w8 w9"),
    (&[Step::Write(4)], 9, " w8 w9"),
    (&[Step::Write(4), Step::Close(4, None)], 3, " w8 w9"),
    (&[Step::Write(4), Step::Close(4, None)], 4, " w4 w8 w9"),
    (
        &[Step::Write(8), Step::Close(4, None), Step::Truncate(3)],
        9,
        " w8 w9",
    ),
    (&[Step::Truncate(2)], 9, ""),
    (
        &[Step::Truncate(2), Step::Write(1), Step::Close(3, None)],
        9,
        " w1",
    ),
    (&[Step::Repair], 9, ""),
    (&[Step::Repair, Step::Adopt(2, 3, None)], 0, ""),
    (&[Step::Repair, Step::Adopt(2, 3, None)], 1, " w8 w9"),
    (
        &[
            Step::Repair,
            Step::Write(6),
            Step::Close(2, None),
            Step::Adopt(2, 3, None),
        ],
        1,
        " w6",
    ),
    (
        &[
            Step::Repair,
            Step::Write(6),
            Step::Close(2, None),
            Step::Adopt(2, 3, None),
            Step::EndRepair,
        ],
        2,
        " w6 w8 w9",
    ),
    (
        &[Step::Repair, Step::Adopt(2, 3, None), Step::Truncate(0)],
        9,
        "",
    ),
    (&[Step::Clear], 9, ""),
];

/// Returns the keys that records below a number wrote, as `show` writes them.
fn show_own(alloc: Global, log: &Log, number: usize) -> Result<String, Fail> {
    let mut text = String::new(alloc);
    for n in 0..10 {
        if log.undo().touched(number, 0, &key(alloc, &[n])?) {
            add(alloc, &mut text, "w", n)?;
        }
    }
    Ok(text)
}

fn are_own_as_told(alloc: Global, log: &mut Log, case: &Own) -> Result<bool, Fail> {
    let (more, number, keys) = *case;
    log.clear();
    take_steps(alloc, log, RUN)?;
    take_steps(alloc, log, more)?;
    Ok(show_own(alloc, log, number)?.as_str() == keys)
}

#[test]
fn own_writes_are_those_of_the_records(rt: HostRuntime) -> Result<(), Fail> {
    let alloc = rt.alloc();
    let mut log = Log::new(alloc);
    for (i, case) in OWN.iter().enumerate() {
        ensure_at(alloc, are_own_as_told(alloc, &mut log, case)?, i)?;
    }
    Ok(())
}

/// Two rows of two columns, whether the first one passes, whether the predicate sees the same of both, and whether it
/// admits the first one's first value as a key.
type Sight = ([i64; 2], [i64; 2], bool, bool, bool);

const SIGHTS: &[Sight] = &[
    ([7, 1], [7, 1], true, true, true),
    ([7, 1], [7, 2], true, false, true),
    ([7, 1], [8, 1], true, false, true),
    ([8, 1], [8, 2], false, true, false),
    ([8, 1], [7, 1], false, false, false),
];

fn sees_as_told(alloc: Global, pred: &PredRef<'_>, sight: &Sight) -> Result<bool, Fail> {
    let (before, after, matches, same, admits) = *sight;
    let key = key(alloc, &before[..1])?;
    let before = row(alloc, &before)?;
    let after = row(alloc, &after)?;
    Ok(
        pred.matches(&before) == matches
            && pred.same(Some(&before), Some(&after)) == same
            && pred.admits(&key) == admits,
    )
}

fn sees_rows(alloc: Global, pred: &PredRef<'_>) -> Result<(), Fail> {
    for (i, sight) in SIGHTS.iter().enumerate() {
        ensure_at(alloc, sees_as_told(alloc, pred, sight)?, i)?;
    }
    ensure_at(alloc, pred.names(0) && pred.names(1) && !pred.names(2), 9)
}

#[test]
fn a_lent_predicate_sees_rows(rt: HostRuntime) -> Result<(), Fail> {
    let alloc = rt.alloc();
    let mut log = Log::new(alloc);
    ask(&mut log, 0, 7)?;
    let preds = log.preds();
    if preds.len() != 1 {
        return Err("not one predicate".into());
    }
    sees_rows(alloc, &preds.get(0))
}
