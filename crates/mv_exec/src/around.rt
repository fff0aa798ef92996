//! What is around the statement at a frame: the record that holds it, the loops with their turns, and the records that
//! last set its variables.

ghost use Rattle.std.specs.Prelude.{◌≡◌, ◌↔◌, [], true, count_by, IfOk, OnOk, MatchOption};
ghost use Rattle.std.specs.Option.{option_or};
ghost use Rattle.mv_recorded.specs.Reading.{loop_of};
ghost use Rattle.mv_recorded.specs.Recorded.{Site, outside};
ghost use Rattle.mv_exec.specs.Frames.{is_loop, site_in, site_of};
ghost use Rattle.mv_exec.specs.Tasks.{definer_in};

use crate::frames::{Frame, Holder, innermost};
use mv_values::list::List;
use mv_values::memory::NoMemory;
use std::alloc::Global;

/// Returns the record that holds the holder's statements, given the record around the holder.
fn parent_in(holder: Holder, parent: Option<u32>) -> Option<u32>
    ensures { (site : Site) → parent ≡ site.parent → result ≡ (site_in holder site).parent }
{
    match holder {
        Holder::Procedure => parent,
        Holder::Branch { record, .. } => Some(record),
        Holder::Loop { record, .. } => Some(record),
    }
}

/// Returns the number of the record that holds the statements of the innermost frame.
fn parent_of(frames: &[Frame]) -> Option<u32>
    ensures { result ≡ (site_of outside frames.now).parent }
{
    let mut parent = None;
    for frame in frames {
        parent = parent_in(frame.holder, parent);
    }
    parent
}

/// Returns the number of the record that holds the statements of a frame with this holder, inside these frames.
pub(crate) fn parent_at(frames: &[Frame], holder: Holder) -> Option<u32>
    ensures { result ≡ (site_in holder (site_of outside frames.now)).parent }
{
    match holder {
        Holder::Procedure => parent_of(frames),
        Holder::Branch { record, .. } => Some(record),
        Holder::Loop { record, .. } => Some(record),
    }
}

/// Returns the record of the FOR whose row a variable is, given the one found outside the holder.
fn loop_in(holder: Holder, variable: u16, found: Option<u32>) -> Option<u32>
    ensures { (site : Site) → found ≡ loop_of variable site.loops → result ≡ loop_of variable (site_in holder site).loops }
{
    match holder {
        Holder::Loop { record, row, .. } => {
            if row == variable {
                return Some(record);
            }
            found
        }
        _ => found,
    }
}

/// Returns the record of the FOR around the innermost frame whose row a variable is.
fn loop_around(frames: &[Frame], variable: u16) -> Option<u32>
    ensures { result ≡ loop_of variable (site_of outside frames.now).loops }
{
    let mut found = None;
    for frame in frames {
        found = loop_in(frame.holder, variable, found);
    }
    found
}

/// Returns the record of the FOR whose row a variable is, around a frame with this holder inside these frames.
fn loop_at(frames: &[Frame], holder: Holder, variable: u16) -> Option<u32>
    ensures { result ≡ loop_of variable (site_in holder (site_of outside frames.now)).loops }
{
    loop_in(holder, variable, loop_around(frames, variable))
}

/// Returns the number of the record that last set a variable, other than the row of a loop.
fn last_definer(definers: &[Option<u32>], variable: u16) -> Option<u32>
    ensures { result ≡ definer_in definers.now variable }
{
    match definers.get(variable as usize) {
        Some(definer) => *definer,
        None => None,
    }
}

/// Returns the number of the record that last set a variable, for a statement at a frame with this holder inside these
/// frames. For a loop's row it is the record of the FOR.
pub(crate) fn definer_of(
    frames: &[Frame],
    holder: Holder,
    definers: &[Option<u32>],
    variable: u16,
) -> Option<u32>
    ensures { result ≡ option_or (loop_of variable (site_in holder (site_of outside frames.now)).loops) (definer_in definers.now variable) }
{
    match loop_at(frames, holder, variable) {
        Some(record) => Some(record),
        None => last_definer(definers, variable),
    }
}

/// Whether a holder is a loop.
fn is_loop(holder: Holder) -> bool
    ensures { result ≡ is_loop holder }
{
    match holder {
        Holder::Loop { .. } => true,
        _ => false,
    }
}

/// Returns the number of loops around the innermost frame.
fn loops_around(frames: &[Frame]) -> usize
    ensures { result ≡ count_by (λ frame. is_loop frame.holder) frames.now }
{
    frames.iter().filter(|frame| is_loop(frame.holder)).count()
}

/// Returns the number of loops around a frame with this holder inside these frames.
fn loops_at(frames: &[Frame], holder: Holder) -> usize {
    let around = loops_around(frames);
    if is_loop(holder) {
        around.saturating_add(1)
    } else {
        around
    }
}

/// Returns the number of a turn in four bytes. Fails with `NoMemory` if it has no room there; no loop has so many rows.
pub(crate) fn turn_number(turn: usize) -> Result<u32, NoMemory>
    ensures { IfOk result (λ number. number ≡ turn) }
{
    if turn > 4_294_967_295 {
        return Err(NoMemory);
    }
    Ok(turn as u32)
}

/// Returns the turns around a holder, given those inside it, or none if the last one isn't the holder's.
fn turns_outside(holder: Holder, turns: &[u32]) -> Option<&[u32]>
    ensures { MatchOption result ((site : Site) → (site_in holder site).turns ≡ turns.now → ⊥) (λ outer. (site : Site) → ((site_in holder site).turns ≡ turns.now) ↔ (site.turns ≡ outer.now)) }
{
    let Holder::Loop { turn, .. } = holder else {
        return Some(turns);
    };
    match turns {
        [] => None,
        [outer @ .., last] => {
            if *last as usize == turn {
                Some(outer)
            } else {
                None
            }
        }
    }
}

/// Whether there are no turns.
fn is_empty(turns: &[u32]) -> bool
    ensures { (result ≡ true) ↔ ([] ≡ turns.now) }
{
    match turns {
        [] => true,
        _ => false,
    }
}

/// Whether these are the turns of the loops around the innermost frame, from the outside in.
fn are_turns(frames: &[Frame], turns: &[u32]) -> bool
    ensures { (result ≡ true) ↔ ((site_of outside frames.now).turns ≡ turns.now) }
{
    let Some((outer, last)) = innermost(frames) else {
        return is_empty(turns);
    };
    match turns_outside(last.holder, turns) {
        Some(left) => are_turns(outer, left),
        None => false,
    }
}

/// Whether these are the turns of the loops around a frame with this holder inside these frames, from the outside in.
#[tactic(auto, using(crate::proofs::Framing::turns_here, crate::proofs::Framing::turns_apart))]
pub(crate) fn are_turns_at(frames: &[Frame], holder: Holder, turns: &[u32]) -> bool
    ensures { (result ≡ true) ↔ ((site_in holder (site_of outside frames.now)).turns ≡ turns.now) }
{
    match turns_outside(holder, turns) {
        Some(left) => are_turns(frames, left),
        None => false,
    }
}

/// Adds the turn of a holder if it is a loop.
fn add_turn(turns: &mut List<u32>, holder: Holder) -> Result<(), NoMemory>
    ensures { OnOk result ((site : Site) → turns.old ≡ site.turns → turns.new ≡ (site_in holder site).turns) }
{
    match holder {
        Holder::Loop { turn, .. } => turns.push(turn_number(turn)?),
        _ => Ok(()),
    }
}

/// Returns the turns of the loops around a frame with this holder inside these frames, from the outside in.
pub(crate) fn turns_at(
    alloc: Global,
    frames: &[Frame],
    holder: Holder,
) -> Result<List<u32>, NoMemory>
    ensures { IfOk result (λ turns. turns ≡ (site_in holder (site_of outside frames.now)).turns) }
{
    let mut turns = turns_around(alloc, frames, loops_at(frames, holder))?;
    add_turn(&mut turns, holder)?;
    Ok(turns)
}

/// Returns the turns of the loops around the innermost frame, from the outside in, with room for so many.
fn turns_around(alloc: Global, frames: &[Frame], room: usize) -> Result<List<u32>, NoMemory>
    ensures { IfOk result (λ turns. turns ≡ (site_of outside frames.now).turns) }
{
    let mut turns = List::with_room(alloc, room)?;
    for frame in frames {
        add_turn(&mut turns, frame.holder)?;
    }
    Ok(turns)
}
