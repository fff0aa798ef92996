//! Figures of a run.

use mv_trace::calls::Call;
use mv_trace::run::End;
use mv_trace::totals::{Totals, totals_of};
use mv_trace::words::{add_count, add_share};
use mv_values::list::List;
use mv_values::memory::NoMemory;
use std::alloc::Global;

/// How many of the longest repairs are told.
const LONGEST: usize = 10;

/// Returns the figures of a run, a line for each.
pub fn figures(alloc: Global, calls: &[Call]) -> Result<List<u8>, NoMemory> {
    let mut text = List::new(alloc);
    let totals = totals_of(calls);
    add_count(&mut text, b"calls ", totals.calls)?;
    add_count(&mut text, b"\nrolled back ", totals.undone)?;
    text.push(b'\n')?;
    add_reasons(alloc, calls, &mut text)?;
    add_ends(calls, &mut text)?;
    add_totals(&totals, &mut text)?;
    add_longest(alloc, calls, &mut text)?;
    add_procedures(alloc, calls, &mut text)?;
    text.append(b"end\n")?;
    Ok(text)
}

/// Calls that have a name in common, and their counts.
#[derive(Clone, Copy)]
struct Group<'a> {
    name: &'a [u8],
    totals: Totals,
}

/// Counts a call in the group of a name, which may be a new one.
fn count<'a>(groups: &mut List<Group<'a>>, name: &'a [u8], call: &Call) -> Result<(), NoMemory> {
    let place = groups
        .as_slice()
        .iter()
        .position(|group| group.name == name);
    match place {
        Some(at) => {
            let Some(group) = groups.as_slice().get(at) else {
                return Ok(());
            };
            let totals = group.totals.with(call);
            groups.set(at, Group { name, totals });
            Ok(())
        }
        None => groups.push(Group {
            name,
            totals: Totals::NONE.with(call),
        }),
    }
}

/// Adds how often calls were rolled back for each reason.
fn add_reasons(alloc: Global, calls: &[Call], text: &mut List<u8>) -> Result<(), NoMemory> {
    let mut reasons = List::new(alloc);
    for call in calls {
        if let End::RolledBack(reason) = call.end {
            count(&mut reasons, reason, call)?;
        }
    }
    for group in reasons.as_slice() {
        text.append(b"rolled back ")?;
        text.append(group.name)?;
        add_count(text, b" ", group.totals.calls)?;
        text.push(b'\n')?;
    }
    Ok(())
}

/// Adds how many calls committed and how many were answered.
fn add_ends(calls: &[Call], text: &mut List<u8>) -> Result<(), NoMemory> {
    let commits = calls.iter().filter(|call| call.commit.is_some()).count();
    add_count(text, b"commits ", commits)?;
    add_count(
        text,
        b"\nanswered calls ",
        calls.len().saturating_sub(commits),
    )?;
    text.push(b'\n')
}

fn add_totals(totals: &Totals, text: &mut List<u8>) -> Result<(), NoMemory> {
    add_count(text, b"rounds ", totals.rounds)?;
    add_count(text, b"\nrounds that a move ended ", totals.open)?;
    add_count(text, b"\ncalls repaired ", totals.repaired)?;
    add_count(text, b"\ncalls moved ", totals.moved)?;
    add_count(
        text,
        b"\ncalls repaired and committed in one step ",
        totals.exclusive,
    )?;
    add_count(text, b"\nstatements at first ", totals.first)?;
    add_count(text, b"\nstatements again ", totals.again)?;
    text.append(b"\nshare again ")?;
    add_share(text, totals.again, totals.statements())?;
    text.push(b'\n')
}

/// Adds the repairs that executed the most statements again, the longest first.
fn add_longest(alloc: Global, calls: &[Call], text: &mut List<u8>) -> Result<(), NoMemory> {
    let mut longest: List<usize> = List::new(alloc);
    for (number, call) in calls.iter().enumerate() {
        if call.cost.again > 0 {
            let place = longest
                .as_slice()
                .iter()
                .take_while(|other| again_of(calls, **other) >= call.cost.again)
                .count();
            longest.insert(place.min(longest.len()), number)?;
            longest.truncate(LONGEST);
        }
    }
    for number in longest.as_slice() {
        if let Some(call) = calls.get(*number) {
            add_repair(*number, call, text)?;
        }
    }
    Ok(())
}

fn again_of(calls: &[Call], number: usize) -> usize {
    match calls.get(number) {
        Some(call) => call.cost.again,
        None => 0,
    }
}

fn add_repair(number: usize, call: &Call, text: &mut List<u8>) -> Result<(), NoMemory> {
    add_count(text, b"call ", number)?;
    text.push(b' ')?;
    if !call.name.is_empty() {
        text.append(call.name)?;
        text.push(b' ')?;
    }
    text.append(b"statements at first ")?;
    call.cost.add_first(text)?;
    add_count(text, b" again ", call.cost.again)?;
    add_count(text, b" rounds ", call.cost.rounds)?;
    text.push(b'\n')
}

/// Adds the counts of each procedure, in the order of their first calls.
fn add_procedures(alloc: Global, calls: &[Call], text: &mut List<u8>) -> Result<(), NoMemory> {
    let mut procedures = List::new(alloc);
    for call in calls {
        if !call.name.is_empty() {
            count(&mut procedures, call.name, call)?;
        }
    }
    for group in procedures.as_slice() {
        add_procedure(group, text)?;
    }
    Ok(())
}

fn add_procedure(group: &Group, text: &mut List<u8>) -> Result<(), NoMemory> {
    let totals = &group.totals;
    text.append(b"procedure ")?;
    text.append(group.name)?;
    add_count(text, b" calls ", totals.calls)?;
    add_count(text, b" rolled back ", totals.undone)?;
    add_count(text, b" repaired ", totals.repaired)?;
    add_count(text, b" moved ", totals.moved)?;
    add_count(text, b" statements at first ", totals.first)?;
    add_count(text, b" again ", totals.again)?;
    text.append(b" share again ")?;
    add_share(text, totals.again, totals.statements())?;
    text.push(b'\n')
}
