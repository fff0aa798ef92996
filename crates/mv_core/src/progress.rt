//! A call that has begun.

ghost use Rattle.std.specs.Prelude.{◌≡◌, ◌<◌, ◌≤◌, ◌+◌, ◌++◌, ◌∷◌, [], None, Some, IfOk, IfSome, IfNone, OnOk, slice_get};
ghost use Rattle.mv_lawful.specs.Lawful.{finish};
ghost use Rattle.mv_lawful.specs.Rounds.{numbered, closed, uncounted};
ghost use Rattle.mv_core.specs.Calls.{live_of, committed, with_own, replies_in, IsFresh};

use crate::roomy::Roomy;
use mv_journal::outcome::{Mark, Round};
use mv_values::calls::Reply;
use mv_values::list::List;
use mv_values::memory::NoMemory;
use std::alloc::Global;

/// A call that has begun.
#[derive(Drop)]
pub(crate) struct Progress {
    /// The number of commits before its last round.
    pub(crate) start: u32,
    pub(crate) rounds: Roomy<Round>,
    /// The number of its statements in the journal.
    pub(crate) steps: usize,
    /// Its reply, after it has committed or was answered.
    pub(crate) reply: Option<Reply>,
}

impl Progress {
    /// Returns a call that begins after this many commits.
    pub(crate) fn new(alloc: Global, start: u32) -> Result<Progress, NoMemory>
        ensures { IfOk result (IsFresh start) }
    {
        let mut rounds = Roomy::new(alloc);
        rounds.reserve(1)?;
        rounds.put(Round {
            start,
            count: None,
            mark: Mark::Plain,
        });
        Ok(Progress {
            start,
            rounds,
            steps: 0,
            reply: None,
        })
    }

    /// Makes room for two rounds.
    pub(crate) fn reserve(&mut self) -> Result<(), NoMemory>
        ensures live { live_of self.new ≡ live_of self.old }
        ensures rounds { self.new.rounds.items ≡ self.old.rounds.items }
        ensures reply { self.new.reply ≡ self.old.reply }
        ensures room { OnOk result (2 ≤ self.new.rounds.room) }
        ensures kept { self.old.rounds.room ≤ self.new.rounds.room }
    {
        self.rounds.reserve(2)
    }

    /// Sets the number of the last round.
    pub(crate) fn settle(&mut self, count: usize)
        ensures start { self.new.start ≡ self.old.start }
        ensures steps { self.new.steps ≡ self.old.steps }
        ensures rounds { self.new.rounds.items ≡ numbered (Some count) self.old.rounds.items }
        ensures reply { self.new.reply ≡ self.old.reply }
        ensures room { self.new.rounds.room ≡ self.old.rounds.room }
    {
        self.rounds.number_last(Some(count));
    }

    /// Adds a round without its number, which begins after this many commits. A move clears the number of the round
    /// before it.
    pub(crate) fn restart(&mut self, start: u32, mark: Mark)
        requires { 0 < self.old.rounds.room }
        ensures start { self.new.start ≡ start }
        ensures steps { self.new.steps ≡ self.old.steps }
        ensures rounds { self.new.rounds.items ≡ closed mark self.old.rounds.items ++ uncounted start mark ∷ [] }
        ensures reply { self.new.reply ≡ self.old.reply }
        ensures room { self.old.rounds.room ≤ self.new.rounds.room + 1 }
    {
        if let Mark::Moved = mark {
            self.rounds.number_last(None);
        }
        self.start = start;
        self.rounds.put(Round {
            start,
            count: None,
            mark,
        });
    }

    /// Commits the call with this reply, after this many commits. If a number is given, it commits in a round of its
    /// own.
    pub(crate) fn commit(&mut self, start: u32, reply: Reply, own: Option<usize>)
        requires { 0 < self.old.rounds.room }
        ensures live { live_of self.new ≡ committed start own (live_of self.old) }
        ensures rounds { self.new.rounds.items ≡ with_own start own self.old.rounds.items }
        ensures reply { self.new.reply ≡ Some reply }
        ensures room { self.old.rounds.room ≤ self.new.rounds.room + 1 }
    {
        if let Some(count) = own {
            self.start = start;
            self.rounds.put(Round {
                start,
                count: Some(count),
                mark: Mark::Exclusive,
            });
        }
        self.reply = Some(reply);
    }

    /// Answers the call with this reply.
    pub(crate) fn answer(&mut self, reply: Reply)
        ensures live { live_of self.new ≡ finish (live_of self.old) }
        ensures start { self.new.start ≡ self.old.start }
        ensures rounds { self.new.rounds ≡ self.old.rounds }
        ensures reply { self.new.reply ≡ Some reply }
    {
        self.reply = Some(reply);
    }

    /// Copies its rounds.
    pub(crate) fn copy_rounds(&self, alloc: Global) -> Result<List<Round>, NoMemory>
        ensures { IfOk result (λ rounds. rounds ≡ self.now.rounds.items) }
    {
        let mut rounds = List::new(alloc);
        rounds.append(self.rounds.as_slice())?;
        Ok(rounds)
    }
}

/// Returns the replies of the calls that have committed or were answered.
pub(crate) fn replies_of(alloc: Global, calls: Vec<Progress>) -> Result<List<Reply>, NoMemory>
    ensures { IfOk result (λ replies. replies ≡ replies_in calls.items) }
{
    let mut replies = List::new(alloc);
    for call in calls {
        let Progress { reply, .. } = call;
        if let Some(reply) = reply {
            replies.push(reply)?;
        }
    }
    Ok(replies)
}

/// Returns the call with this number, if it is live.
pub(crate) fn live_at(calls: &[Progress], call: u32) -> Option<&Progress>
    ensures found { IfSome result (λ p. (slice_get calls.now call ≡ Some p.now) × (p.now.reply ≡ None)) }
    ensures none { IfNone result ((p : Progress) → slice_get calls.now call ≡ Some p → p.reply ≡ None → ⊥) }
{
    match calls.get(call as usize) {
        Some(progress) => match progress.reply {
            None => Some(progress),
            Some(_) => None,
        },
        None => None,
    }
}
