//! The journal of a script in which calls overlap.

ghost use Rattle.std.specs.Prelude.{◌≡◌, ◌<◌, IfOk};
ghost use Rattle.mv_script.specs.Scripts.{IsCompiledScript, batch_of};
ghost use Rattle.mv_lawful.specs.Lawful.{Lawful};

use crate::events::{commit, move_up, try_event};
use crate::fault::Fault;
use crate::mix::Mix;
use mv_core::engine::Core;
use mv_journal::event::Event;
use mv_script::script::CompiledScript;
use mv_values::list::List;
use mv_values::memory::NoMemory;
use rand_core::{Rng, SeedableRng};
use rand_xoshiro::SplitMix64;
use std::alloc::Global;

/// The most turns whose events are drawn. After these each call that is left commits.
const MOST_TURNS: u32 = 1_000_000;

/// The calls that are live, and what decides which event comes next.
#[derive(Drop)]
struct Player {
    mix: Mix,
    random: SplitMix64,
    live: Vec<u32>,
}

impl Player {
    fn new(alloc: Global, mix: Mix) -> Player {
        Player {
            mix,
            random: SplitMix64::seed_from_u64(u64::from(mix.seed)),
            live: Vec::new(alloc),
        }
    }

    /// Draws a number below this one, which isn't 0.
    fn below(&mut self, n: usize) -> usize
        requires { 0 < n }
        ensures within { result < n }
        ensures live { self.new.live ≡ self.old.live }
    {
        (self.random.next_u64() % n as u64) as usize
    }

    /// Begins the next call. Returns false if each has begun.
    fn begin(&mut self, alloc: Global, core: &mut Core) -> Result<bool, NoMemory>
        ensures script { core.new.book.script ≡ core.old.book.script }
    {
        let Some(call) = core.next_call() else {
            return Ok(false);
        };
        if try_event(alloc, core, Event::B(call))?.is_none() {
            self.live.push(call)?;
        }
        Ok(true)
    }

    /// Makes one of the events that a live call may have, or a collection. Returns whether the call has committed.
    fn act(&mut self, alloc: Global, core: &mut Core, call: u32) -> Result<bool, NoMemory>
        ensures script { core.new.book.script ≡ core.old.book.script }
        ensures live { self.new.live ≡ self.old.live }
    {
        let drawn = self.below(100) as u32;
        let Mix {
            steps,
            moves,
            collections,
            ..
        } = self.mix;
        if drawn < moves {
            return move_up(alloc, core, call);
        }
        if drawn - moves < collections {
            try_event(alloc, core, Event::G)?;
            return Ok(false);
        }
        let other = self.below(100) as u32;
        if other < steps && try_event(alloc, core, Event::S(call))?.is_none() {
            return Ok(false);
        }
        commit(alloc, core, call)
    }

    /// Begins a call if fewer are live than may be, and makes an event of any live call otherwise. Returns false once each
    /// call has committed.
    fn turn(&mut self, alloc: Global, core: &mut Core) -> Result<bool, NoMemory>
        ensures script { core.new.book.script ≡ core.old.book.script }
    {
        if self.live.len() < self.mix.calls as usize && self.begin(alloc, core)? {
            return Ok(true);
        }
        if self.live.is_empty() {
            return Ok(false);
        }
        let count = self.live.len();
        let at = self.below(count);
        let call = self.live[at];
        if self.act(alloc, core, call)? {
            self.live.swap_remove(at);
        }
        Ok(true)
    }
}

/// Makes events that are drawn, until each call has committed, or for `MOST_TURNS` turns.
fn play(alloc: Global, core: &mut Core, mix: Mix) -> Result<(), NoMemory>
    ensures script { core.new.book.script ≡ core.old.book.script }
{
    let mut player = Player::new(alloc, mix);
    for _ in 0..MOST_TURNS {
        if !player.turn(alloc, core)? {
            return Ok(());
        }
    }
    Ok(())
}

/// Commits a live call, beside no other one. It may have to be moved or repaired before.
fn end(alloc: Global, core: &mut Core, call: u32) -> Result<(), NoMemory>
    ensures script { core.new.book.script ≡ core.old.book.script }
{
    if !commit(alloc, core, call)? {
        commit(alloc, core, call)?;
    }
    Ok(())
}

/// Commits each call that hasn't committed, one after another. Begins those that haven't begun.
fn end_all(alloc: Global, core: &mut Core, calls: u32) -> Result<(), NoMemory>
    ensures script { core.new.book.script ≡ core.old.book.script }
{
    for call in 0..calls {
        try_event(alloc, core, Event::B(call))?;
        if core.rounds(call).is_some() {
            end(alloc, core, call)?;
        }
    }
    Ok(())
}

/// Returns a lawful journal of a script in which calls overlap. The same script and mix give the same journal. Each turn
/// begins a call if fewer are live than the mix says, and otherwise makes an event of a live call that is drawn. Fails with
/// `NoMemory` if memory runs out.
pub(crate) fn overlapping(
    alloc: Global,
    script: CompiledScript,
    mix: Mix,
) -> Result<List<Event>, Fault>
    requires { IsCompiledScript script }
    ensures { IfOk result (Lawful (batch_of script)) }
{
    let calls = script.calls.len() as u32;
    let mut core = Core::new(alloc, script)?;
    play(alloc, &mut core, mix)?;
    end_all(alloc, &mut core, calls)?;
    if core.open_call().is_some() {
        return Err(Fault::Open);
    }
    let outcome = core.outcome(alloc)?;
    Ok(outcome.journal)
}
