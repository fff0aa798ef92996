//! Random journals that are lawful.

use crate::scripts::{any_script, byte};
use mv_accept::accept::accept;
use mv_core::drive::DriveFault;
use mv_core::engine::Core;
use mv_journal::event::Event;
use mv_top::script::compile_program;
use mv_values::calls::Options;
use mv_values::list::List;
use mv_values::memory::NoMemory;
use rand_core::SeedableRng;
use rand_xoshiro::SplitMix64;
use std::alloc::Global;
use std::test::Fail;

/// Returns the begin of the next call, or another event of one of six calls. Few of them move a call or collect.
fn any_event(random: &mut SplitMix64, next: u32) -> Event {
    let call = byte(random) as u32 % 6;
    match byte(random) % 64 {
        0..=15 => Event::B(next),
        16..=23 => Event::S(call),
        24..=43 => Event::A(call),
        44..=51 => Event::C(call),
        52..=57 => Event::X(call),
        58..=60 => Event::R(call),
        61 => Event::M(call),
        _ => Event::G,
    }
}

/// Makes an event, if the law of journals allows it.
fn try_event(alloc: Global, core: &mut Core, event: Event) -> Result<(), NoMemory> {
    match core.event(alloc, &event, 0) {
        Err(DriveFault::NoMemory) => Err(NoMemory),
        _ => Ok(()),
    }
}

/// Makes random events until each call has committed or was answered.
fn make_events(alloc: Global, random: &mut SplitMix64, core: &mut Core) -> Result<(), Fail> {
    for _ in 0..100_000u32 {
        if core.open_call().is_none() {
            return Ok(());
        }
        let event = any_event(random, core.begun());
        try_event(alloc, core, event)?;
    }
    Err("a call stays open".into())
}

/// Returns random options: no more than three rounds, and in half of all cases a horizon of no more than five commits.
fn any_options(random: &mut SplitMix64) -> Options {
    let rounds = byte(random) as u32 % 4;
    let horizon = match byte(random) % 12 {
        commits @ 0..=5 => Some(commits as u32),
        _ => None,
    };
    Options { rounds, horizon }
}

/// Returns a lawful journal of a script.
fn any_journal(
    alloc: Global,
    random: &mut SplitMix64,
    script: &[u8],
    options: Options,
) -> Result<List<Event>, Fail> {
    let program = accept(alloc, script).or(Err("refused"))?;
    let prepared = compile_program(alloc, program, options)?;
    let mut core = Core::new(alloc, prepared.script)?;
    make_events(alloc, random, &mut core)?;
    let mut events = List::new(alloc);
    events.append(core.journal())?;
    Ok(events)
}

/// A random script, options, and a lawful journal of it.
#[derive(Drop)]
pub(crate) struct Case {
    pub(crate) script: List<u8>,
    pub(crate) options: Options,
    pub(crate) events: List<Event>,
}

/// Returns the case of a seed.
pub(crate) fn any_case(alloc: Global, seed: u64) -> Result<Case, Fail> {
    let mut random = SplitMix64::seed_from_u64(seed);
    let options = any_options(&mut random);
    let script = any_script(alloc, &mut random)?;
    let events = any_journal(alloc, &mut random, script.as_slice(), options)?;
    Ok(Case {
        script,
        options,
        events,
    })
}
