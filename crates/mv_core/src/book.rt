//! The history of a run: its events, and their outcome so far.

ghost use Rattle.std.specs.Prelude.{◌≡◌, ◌<◌, ◌≤◌, ◌+◌, ◌++◌, ◌∷◌, ◌≢◌, ◌↔◌, [], None, Some, length, map, IsTrue, IfOk, IfErr, IfSome, IfNone, OnOk};
ghost use Rattle.std.specs.Option.{option_copied};
ghost use Rattle.mv_values.specs.Counts.{first_numbers};
ghost use Rattle.mv_lawful.specs.Batch.{since};
ghost use Rattle.mv_lawful.specs.Lawful.{Live, Lawful, beginning, schedule_of, open_call, refusal, is_stale, has_round, oldest, floor, next_low, AllAllowed};
ghost use Rattle.mv_lawful.specs.Places.{places};
ghost use Rattle.mv_lawful.specs.Outcomes.{history_line, outcome_of, reply_in};
ghost use Rattle.mv_script.specs.Scripts.{IsCompiledScript};
ghost use Rattle.mv_view.specs.declared.view.Refused.TheVariants as refused;
ghost use Rattle.mv_changes.specs.Commits.{changes_in, AreNumbered};
ghost use Rattle.mv_core.specs.Calls.{IsLive, IsLiveCall, due_number};
ghost use Rattle.mv_core.specs.Books.{batch_in, IsSettled, last_run, last_tables, last_changes, start_run, IsReader, IsNoReader, Made, IsSame, HasBegun, round_event, IsMissing, commit_event, own_number, IsOwnNumber, HasRoom, UsesOne, KeepsRoom, HasRounds, IsNotStale, IsAlone, Remembers, AreRecordsOf, IsAnswer, HasAnswered};
ghost use Rattle.mv_journal.specs.declared.event.Event.TheVariants.{S, G};
ghost use Rattle.mv_journal.specs.declared.outcome.Mark.TheVariants.{Plain, Exclusive};

use crate::copies::append_copies;
use crate::history::history_of;
use crate::live::LiveCalls;
use crate::progress::{Progress, live_at, replies_of};
use crate::roomy::{Roomy, last_number};
use crate::shared::SharedScript;
use mv_changes::changes::Changes;
use mv_changes::recent::{Committed, Recent};
use mv_exec::task::Task;
use mv_journal::event::Event;
use mv_journal::outcome::{HistoryLine, Mark, Outcome, Round};
use mv_script::script::CompiledScript;
use mv_values::calls::Reply;
use mv_values::list::List;
use mv_values::memory::NoMemory;
use mv_values::rows::Database;
use mv_view::view::Refused;
use std::alloc::Global;
use std::marker::Model;

/// A call that began, and the number of commits before it.
#[derive(Clone, Copy)]
pub struct Begun {
    pub call: u32,
    pub start: u32,
}

/// The result of the validation of a call.
#[derive(Clone, Copy)]
pub enum Check {
    /// No commit after the call's start hits its records. The call may commit.
    Free,
    /// A commit after the call's start hits its records. This is the least record that is hit, and the first commit
    /// that hits it.
    Hit { number: usize, commit: u32 },
    /// The call's start is below low.
    Stale { start: u32, low: u32 },
}

/// The history of a run: its script, the events, and their outcome so far. It contains no tables and no running calls.
/// The law of journals allows each of its events.
#[derive(Drop)]
pub struct Book {
    script: SharedScript,
    /// The calls that have committed, in order.
    order: Roomy<u32>,
    /// The calls that were answered, in order.
    answered: Roomy<u32>,
    /// The calls that have begun, by number.
    calls: Vec<Progress>,
    live: LiveCalls,
    /// The changes of the commits that a live call may need: those after its start, if that isn't below low.
    recent: Recent,
    low: u32,
    /// The number of commits at which changes are dropped again.
    next_trim: usize,
    journal: Roomy<Event>,
}

impl Model for Book {
    ghost use Rattle.std.specs.Prelude.{map, min};
    ghost use Rattle.std.specs.Coded.{codes};
    ghost use Rattle.mv_catalog.specs.contracts.resolved.RStmt as statement;
    ghost use Rattle.mv_core.specs.Calls.{live_of};
    ghost use Rattle.mv_core.specs.Books.{Booked, IsBook};

    ghost Value = { Booked };

    ghost coded = { Prim.hlevel (codes, statement.the_row.coded) };

    ghost view = { λ b. record {
      script = b.script;
      schedule = record { order = b.order.items; calls = map live_of b.calls.items; low = b.low; answered = b.answered.items };
      rounds = map (λ p. p.rounds) b.calls.items;
      journal = b.journal.items;
      room = min b.order.room (min b.answered.room (min b.journal.room b.recent.room));
    } };

    ghost invariant = { λ b. IsBook b.script (record { order = b.order.items; calls = map live_of b.calls.items; low = b.low; answered = b.answered.items }) b.calls.items b.journal.items b.live b.recent };
}

impl Book {
    /// Returns a history without events. It allocates no memory.
    pub fn new(alloc: Global, script: SharedScript) -> Book
        requires { IsCompiledScript script }
        ensures script { result.script ≡ script }
        ensures schedule { result.schedule ≡ beginning }
        ensures journal { result.journal ≡ [] }
    {
        Book {
            script,
            order: Roomy::new(alloc),
            answered: Roomy::new(alloc),
            calls: Vec::new(alloc),
            live: LiveCalls::new(alloc),
            recent: Recent::new(alloc),
            low: 0,
            next_trim: 0,
            journal: Roomy::new(alloc),
        }
    }

    /// Returns the script.
    pub fn script(&self) -> &CompiledScript
        ensures { result.now ≡ self.now.script }
    {
        self.script.get()
    }

    /// Returns the events. The law of journals allows each of them after those before it.
    pub fn journal(&self) -> &[Event]
        ensures events { result.now ≡ self.now.journal }
        ensures allowed { AllAllowed (batch_in self.now) beginning self.now.journal }
        ensures reaches { self.now.schedule ≡ schedule_of (batch_in self.now) self.now.journal }
    {
        self.journal.as_slice()
    }

    /// Returns the call that begins next, or none if each has begun.
    pub fn next_call(&self) -> Option<u32>
        ensures next { IfSome result (λ call. (call ≡ length self.now.schedule.calls) × (call < length self.now.script.calls)) }
        ensures none { IfNone result (length self.now.schedule.calls ≡ length self.now.script.calls) }
    {
        let call = self.calls.len();
        if call < self.script.get().calls.len() {
            Some(call as u32)
        } else {
            None
        }
    }

    /// Begins the next call, after all commits. Returns `None` exactly if each call has begun. Fails with `NoMemory` if
    /// memory runs out.
    pub fn begin(&mut self, alloc: Global) -> Result<Option<Begun>, NoMemory>
        ensures { HasBegun result self.old self.new }
    {
        if self.calls.len() >= self.script.get().calls.len() {
            return Ok(None);
        }
        let call = self.calls.len() as u32;
        let start = self.order.len() as u32;
        self.journal.reserve(1)?;
        self.calls.reserve(1)?;
        let progress = Progress::new(alloc, start)?;
        self.live.push(call)?;
        if self.calls.push(progress).is_err() {
            unreachable!();
        }
        self.journal.put(Event::B(call));
        Ok(Some(Begun { call, start }))
    }

    /// Adds the event that a call executes a statement.
    pub fn ran(&mut self, call: u32)
        requires allowed { refusal (batch_in self.old) self.old.schedule (S call) ≡ None }
        requires room { 0 < self.old.room }
        ensures made { Made (S call) self.old self.new }
        ensures room { UsesOne self.old self.new }
    {
        self.journal.put(Event::S(call));
        self.calls[call as usize].steps += 1;
    }

    /// Repairs a call for `Plain`, or moves it for `Moved`. The call starts anew after all commits. Its new round has no
    /// number yet. Returns the new start. A repair needs the number of the round before it. After a move that round has
    /// none.
    pub fn restart(&mut self, call: u32, mark: Mark) -> u32
        requires mark { mark ≢ Exclusive }
        requires allowed { refusal (batch_in self.old) self.old.schedule (round_event mark call) ≡ None }
        requires settled { mark ≡ Plain → IsSettled self.old call }
        requires room { HasRoom self.old call 1 }
        ensures made { Made (round_event mark call) self.old self.new }
        ensures start { result ≡ length self.old.schedule.order }
        ensures room { UsesOne self.old self.new }
    {
        let start = self.order.len() as u32;
        self.calls[call as usize].restart(start, mark);
        self.journal.put(round_event(mark, call));
        start
    }

    /// Gives the last round of a live call its number: that of the records that its task executed. Does nothing if the
    /// round has its number.
    pub fn settle(&mut self, call: u32, task: &Task)
        requires live { IsLiveCall self.old.schedule call }
        requires number { IsMissing task.now.executed self.old call }
        ensures settled { IsSettled self.new call }
        ensures same { IsSame self.old self.new }
        ensures room { KeepsRoom self.old self.new }
    {
        if last_number(self.calls[call as usize].rounds.as_slice()).is_some() {
            return;
        }
        self.calls[call as usize].settle(task.executed());
    }

    /// Whether this call is live, and no other is.
    pub fn is_alone(&self, call: u32) -> bool
        ensures { IsTrue result ↔ IsAlone self.now call }
    {
        self.live.is_only(call)
    }

    /// Commits a call with this reply and these changes. The changes may be left out if no other call is live: then no call
    /// needs them, nor those of the commits before. If a task is given, the call was repaired in the same step, in a round
    /// of its own. Returns the number of the commit. Drops the changes that no live call needs. Over all commits, that
    /// takes time linear in the number of calls.
    pub fn commit(
        &mut self,
        call: u32,
        reply: Reply,
        changes: Option<Changes>,
        exclusive: Option<&Task>,
    ) -> u32
        requires allowed { refusal (batch_in self.old) self.old.schedule (commit_event (own_number (option_copied exclusive)) call) ≡ None }
        requires reply { reply ≡ (last_run self.old call).reply }
        requires changes { IfSome changes (λ told. told ≡ last_changes self.old call) }
        requires alone { IfNone changes (IsAlone self.old call) }
        requires settled { IsSettled self.old call }
        requires number { IsOwnNumber (own_number (option_copied exclusive)) self.old call }
        requires room { HasRoom self.old call 1 }
        ensures made { Made (commit_event (own_number (option_copied exclusive.entry)) call) self.old self.new }
        ensures number { result ≡ length self.old.schedule.order + 1 }
        ensures room { UsesOne self.old self.new }
    {
        let start = self.order.len() as u32;
        let own = own_number(exclusive);
        let number = start + 1;
        self.calls[call as usize].commit(start, reply, own);
        self.live.remove(call);
        self.order.put(call);
        remember(&mut self.recent, number, changes);
        self.journal.put(commit_event(own, call));
        self.trim();
        number
    }

    /// Answers a read only call with this reply, which is that of the call alone on the tables at its start. Returns
    /// the start. The call is no commit, and adds no changes. Fails with `Stale` exactly if the start is below low, and
    /// then does nothing. It allocates no memory.
    pub fn answer_read(&mut self, call: u32, reply: Reply) -> Result<u32, Refused>
        requires live { IsLiveCall self.old.schedule call }
        requires kind { IsReader self.old call }
        requires reply { (l : Live) → IsLive self.old.schedule call l → reply ≡ (start_run self.old call l).reply }
        requires settled { IsSettled self.old call }
        requires room { 0 < self.old.room }
        ensures answered { HasAnswered call result self.old self.new }
        ensures never { IfErr result (λ why. why ≢ refused.NoMemory) }
        ensures room { UsesOne self.old self.new }
    {
        let start = self.start(call);
        if start < self.low {
            return Err(Refused::Stale {
                start,
                low: self.low,
            });
        }
        self.calls[call as usize].answer(reply);
        self.live.remove(call);
        self.answered.put(call);
        self.journal.put(Event::R(call));
        Ok(start)
    }

    /// Drops the changes up to the least start of a live call, or up to low if that is greater. Waits until as many calls
    /// have committed as had begun the last time. So it passes no more live calls than have begun since.
    fn trim(&mut self)
        ensures same { IsSame self.old self.new }
        ensures room { KeepsRoom self.old self.new }
    {
        if self.order.len() < self.next_trim {
            return;
        }
        let needless = self.low.max(self.oldest_start());
        self.recent.trim(needless);
        self.next_trim = self.calls.len();
    }

    /// Returns the least start of a live call, or the number of commits if no call is live.
    fn oldest_start(&self) -> u32
        ensures { result ≡ oldest (length self.now.schedule.order) self.now.schedule.calls }
    {
        self.live
            .oldest_start(self.calls.as_slice(), self.commits())
    }

    /// Returns the low after a collection.
    fn next_low(&self) -> u32
        ensures { result ≡ next_low (batch_in self.now) self.now.schedule }
    {
        let floor = floor_of(self.commits(), self.script.get().options.horizon);
        self.low.max(self.oldest_start().max(floor))
    }

    /// Raises low as far as a collection may, and drops the changes of the commits up to it. Returns the new low. Takes
    /// time linear in the number of live calls, and over all collections, in the number of commits.
    pub fn collect(&mut self) -> u32
        requires { 0 < self.old.room }
        ensures made { Made G self.old self.new }
        ensures low { result ≡ self.new.schedule.low }
        ensures rises { self.old.schedule.low ≤ result }
        ensures room { UsesOne self.old self.new }
    {
        let low = self.next_low();
        self.recent.trim(low);
        self.low = low;
        self.journal.put(Event::G);
        low
    }

    /// Makes room for an event that is no repair, no move and no commit.
    pub fn reserve_event(&mut self) -> Result<(), NoMemory>
        ensures same { IsSame self.old self.new }
        ensures room { OnOk result (0 < self.new.room) }
    {
        self.recent.reserve(1)?;
        self.order.reserve(1)?;
        self.answered.reserve(1)?;
        self.journal.reserve(1)
    }

    /// Makes room for two events and for two rounds of a call. No room is lost, even if memory runs out.
    pub fn reserve(&mut self, call: u32) -> Result<(), NoMemory>
        requires live { IsLiveCall self.old.schedule call }
        ensures same { IsSame self.old self.new }
        ensures room { OnOk result (HasRoom self.new call 2) }
        ensures kept { KeepsRoom self.old self.new }
    {
        self.recent.reserve(2)?;
        self.order.reserve(2)?;
        self.answered.reserve(2)?;
        self.journal.reserve(2)?;
        self.calls[call as usize].reserve()
    }

    /// Returns the rounds of a live call. Returns `None` for a call that hasn't begun or is done. The last round has
    /// the call's start, and may not have its number yet.
    pub fn rounds(&self, call: u32) -> Option<&[Round]>
        ensures live { IfSome result (λ rounds. HasRounds self.now call rounds.now) }
        ensures none { IfNone result (IsLiveCall self.now.schedule call → ⊥) }
    {
        let progress = live_at(self.calls.as_slice(), call)?;
        Some(progress.rounds.as_slice())
    }

    /// Returns the number of a live call's last round. If the round has none yet, that is the number of the records that
    /// its task executed.
    pub fn number(&self, call: u32, task: &Task) -> usize
        requires live { IsLiveCall self.now.schedule call }
        requires number { IsMissing task.now.executed self.now call }
        ensures { due_number (batch_in self.now) self.now.schedule call ≡ Some result }
    {
        match last_number(self.calls[call as usize].rounds.as_slice()) {
            Some(count) => count,
            None => task.executed(),
        }
    }

    /// Returns the number of statements of a live call in the journal.
    pub fn steps(&self, call: u32) -> usize
        requires { IsLiveCall self.now.schedule call }
        ensures { (l : Live) → IsLive self.now.schedule call l → result ≡ l.steps }
    {
        self.calls[call as usize].steps
    }

    /// Returns the number of commits before the last round of a live call.
    pub fn start(&self, call: u32) -> u32
        requires { IsLiveCall self.now.schedule call }
        ensures value { (l : Live) → IsLive self.now.schedule call l → result ≡ l.start }
        ensures past { result ≤ length self.now.schedule.order }
    {
        self.calls[call as usize].start
    }

    /// Returns low. A live call whose start is below it is stale.
    pub fn low(&self) -> u32
        ensures { result ≡ self.now.schedule.low }
    {
        self.low
    }

    /// Whether the start of a live call is below low.
    pub fn is_stale(&self, call: u32) -> bool
        requires { IsLiveCall self.now.schedule call }
        ensures { (l : Live) → IsLive self.now.schedule call l → result ≡ is_stale self.now.schedule l }
    {
        self.start(call) < self.low
    }

    /// Whether a live call was repaired and moved less often than there are rounds. Then it may be repaired or moved once
    /// more before it is decided in one step.
    pub fn has_round(&self, call: u32) -> bool
        requires { IsLiveCall self.now.schedule call }
        ensures { (l : Live) → IsLive self.now.schedule call l → result ≡ has_round (batch_in self.now) l }
    {
        self.calls[call as usize].rounds.len() <= self.script.get().options.rounds as usize
    }

    /// Returns the number of commits.
    pub fn commits(&self) -> u32
        ensures { result ≡ length self.now.schedule.order }
    {
        self.order.len() as u32
    }

    /// Returns the commits after the start of a live call, with their changes. The call's start may not be below low.
    pub fn since(&self, call: u32) -> &[Committed]
        requires live { IsLiveCall self.now.schedule call }
        requires fresh { IsNotStale self.now call }
        ensures changes { (l : Live) → IsLive self.now.schedule call l → changes_in result.now ≡ since (batch_in self.now) self.now.schedule.order l.start }
        ensures numbers { (l : Live) → IsLive self.now.schedule call l → AreNumbered (l.start + 1) result.now }
    {
        self.recent.since(self.start(call))
    }

    /// Copies the commits after the start of a live call, with their changes. The call's start may not be below low. Fails
    /// with `NoMemory` if memory runs out.
    pub fn copy_since(&self, alloc: Global, call: u32) -> Result<List<Committed>, NoMemory>
        requires live { IsLiveCall self.now.schedule call }
        requires fresh { IsNotStale self.now call }
        ensures changes { IfOk result (λ commits. (l : Live) → IsLive self.now.schedule call l → changes_in commits ≡ since (batch_in self.now) self.now.schedule.order l.start) }
        ensures numbers { IfOk result (λ commits. (l : Live) → IsLive self.now.schedule call l → AreNumbered (l.start + 1) commits) }
    {
        let mut commits = List::new(alloc);
        append_copies(alloc, &mut commits, self.since(call))?;
        Ok(commits)
    }

    /// Validates a live call that isn't read only against the commits after its start. Its task must have executed all
    /// its statements at that start. Returns `Free` exactly if the law of journals allows its commit. It allocates no
    /// memory. It tries each predicate of the records on the key of each change of the predicate's table.
    pub fn check(&self, call: u32, task: &Task) -> Check
        requires live { IsLiveCall self.now.schedule call }
        requires kind { IsNoReader self.now call }
        requires records { AreRecordsOf self.now call task.now.log.records }
        ensures { (l : Live) → IsLive self.now.schedule call l → IsAnswer result (batch_in self.now) self.now.schedule call l }
    {
        let start = self.start(call);
        if start < self.low {
            return Check::Stale {
                start,
                low: self.low,
            };
        }
        match self.recent.first_hit(start, &task.records(), &task.undo()) {
            Some(hit) => Check::Hit {
                number: hit.number,
                commit: hit.commit,
            },
            None => Check::Free,
        }
    }

    /// Returns the calls in the order of the history, with their rounds, and a copy of the events.
    fn copies(&self, alloc: Global) -> Result<(List<HistoryLine>, List<Event>), NoMemory>
        ensures history { IfOk result (λ copies. copies.0 ≡ map (history_line (batch_in self.now) self.now.schedule) (places self.now.schedule)) }
        ensures events { IfOk result (λ copies. copies.1 ≡ self.now.journal) }
    {
        let history = history_of(
            alloc,
            self.calls.as_slice(),
            self.order.as_slice(),
            self.answered.as_slice(),
        )?;
        let mut events = List::new(alloc);
        events.append(self.journal.as_slice())?;
        Ok((history, events))
    }

    /// Returns the replies, by call.
    fn replies(self, alloc: Global) -> Result<List<Reply>, NoMemory>
        requires { open_call (batch_in self) self.schedule ≡ None }
        ensures { IfOk result (λ replies. replies ≡ map (reply_in (batch_in self) self.schedule) (first_numbers (batch_in self).count)) }
    {
        replies_of(alloc, self.calls)
    }

    /// Turns the history into the outcome of the run: the replies by call, the calls in their order with their rounds,
    /// the events, and these tables, which are those after all commits. Its journal is lawful.
    pub fn outcome(self, alloc: Global, tables: Database) -> Result<Outcome, NoMemory>
        requires ended { open_call (batch_in self) self.schedule ≡ None }
        requires tables { tables ≡ last_tables self }
        ensures outcome { IfOk result (λ outcome. outcome ≡ outcome_of (batch_in self) self.journal) }
        ensures lawful { Lawful (batch_in self) self.journal }
    {
        let (history, journal) = self.copies(alloc)?;
        let replies = self.replies(alloc)?;
        Ok(Outcome {
            replies,
            history,
            journal,
            tables,
        })
    }
}

/// Adds the changes of a commit. There must be room for it.
fn add(recent: &mut Recent, number: u32, changes: Changes)
    requires next { number ≡ recent.old.low + length recent.old.commits + 1 }
    requires room { 0 < recent.old.room }
    ensures low { recent.new.low ≡ recent.old.low }
    ensures commits { recent.new.commits ≡ recent.old.commits ++ changes ∷ [] }
    ensures room { recent.old.room ≤ recent.new.room + 1 }
{
    if let Err(_) = recent.push(number, changes) {
        unreachable!();
    }
}

/// Adds the changes of a commit, for which there must be room. If they are left out, drops all changes.
fn remember(recent: &mut Recent, number: u32, changes: Option<Changes>)
    requires next { number ≡ recent.old.low + length recent.old.commits + 1 }
    requires room { 0 < recent.old.room }
    ensures remembers { Remembers number changes recent.old recent.new }
    ensures room { recent.old.room ≤ recent.new.room + 1 }
{
    match changes {
        Some(changes) => add(recent, number, changes),
        None => recent.pass(number),
    }
}

/// Returns the event of a repair or a move.
fn round_event(mark: Mark, call: u32) -> Event
    ensures { result ≡ round_event mark call }
{
    match mark {
        Mark::Plain => Event::A(call),
        Mark::Moved => Event::M(call),
        Mark::Exclusive => Event::X(call),
    }
}

/// Returns the event of a commit, with or without a round of its own.
fn commit_event(own: Option<usize>, call: u32) -> Event
    ensures { result ≡ commit_event own call }
{
    match own {
        None => Event::C(call),
        Some(_) => Event::X(call),
    }
}

/// Returns the number of records that the task executed, if there is one.
fn own_number(exclusive: Option<&Task>) -> Option<usize>
    ensures { result ≡ own_number (option_copied exclusive.entry) }
{
    match exclusive {
        None => None,
        Some(task) => Some(task.executed()),
    }
}

/// Returns the least start that counts if there is a horizon, and 0 otherwise.
fn floor_of(n: u32, horizon: Option<u32>) -> u32
    ensures { result ≡ floor n horizon }
{
    match horizon {
        None => 0,
        Some(horizon) => n.saturating_sub(horizon),
    }
}
