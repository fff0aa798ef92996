//! From the events of a journal to bars.

ghost use Rattle.std.specs.Prelude.{◌≡◌, ◌<◌, ◌++◌, ◌∷◌, [], List as Seq, length, count_by, slice_get, Some, IfOk, OnOk};
ghost use Rattle.std.specs.List.{list_all};
ghost use Rattle.mv_journal.specs.declared.event.Event.{Event};
ghost use Rattle.mv_journal.specs.declared.event.Event.TheVariants.{B};
ghost use Rattle.mv_trace.specs.Bars.{AreBars, AreOpen, is_begin, has_ended};

use crate::fault::TextFault;
use mv_journal::event::Event;
use mv_values::list::List;
use std::alloc::Global;

/// The bar of a call. It reaches from the event with which the call begins to the one with which it ends: it commits or is answered.
#[derive(Clone, Copy)]
pub struct Bar {
    /// The place of its begin among the events, from 0.
    pub from: usize,
    /// The place of its end. It equals `from` as long as the call is live.
    pub to: usize,
    /// The place of its first repair or move, if it has one, and else of its begin.
    pub again: usize,
    /// How often it was repaired.
    pub repairs: usize,
    /// How often it moved.
    pub moves: usize,
    /// Whether its last repair and its commit were one event.
    pub is_exclusive: bool,
}

impl Bar {
    fn begun(at: usize) -> Bar
        ensures from { result.from ≡ at }
        ensures to { result.to ≡ at }
    {
        Bar {
            from: at,
            to: at,
            again: at,
            repairs: 0,
            moves: 0,
            is_exclusive: false,
        }
    }

    fn repaired(self, at: usize) -> Bar
        ensures from { result.from ≡ self.from }
        ensures to { result.to ≡ self.to }
    {
        Bar {
            repairs: self.repairs.saturating_add(1),
            ..self.executed_again(at)
        }
    }

    fn moved(self, at: usize) -> Bar
        ensures from { result.from ≡ self.from }
        ensures to { result.to ≡ self.to }
    {
        Bar {
            moves: self.moves.saturating_add(1),
            ..self.executed_again(at)
        }
    }

    fn executed_again(self, at: usize) -> Bar
        ensures from { result.from ≡ self.from }
        ensures to { result.to ≡ self.to }
    {
        if self.again == self.from {
            Bar { again: at, ..self }
        } else {
            self
        }
    }

    fn ended(self, at: usize, is_exclusive: bool) -> Bar
        ensures from { result.from ≡ self.from }
        ensures to { result.to ≡ at }
    {
        Bar {
            to: at,
            is_exclusive,
            ..self
        }
    }
}

/// Returns the bar of a call that is live. The line of the event is told where the call isn't.
fn live_bar(bars: &[Bar], call: u32, line: usize) -> Result<Bar, TextFault>
    ensures bar { IfOk result (λ bar. slice_get bars.now call ≡ Some bar) }
    ensures within { OnOk result (call < length bars.now) }
{
    match bars.get(call as usize) {
        Some(bar) if bar.from == bar.to => Ok(*bar),
        _ => Err(TextFault::Line(line)),
    }
}

/// Whether each call has ended.
fn have_ended(bars: &[Bar]) -> bool
    ensures { result ≡ list_all has_ended bars.now }
{
    bars.iter().all(|bar| bar.from != bar.to)
}

/// Returns the bars of the calls of a journal, by the numbers of the calls: one for each. Fails if a call begins out of
/// turn, if an event is of a call that isn't live, or if a call doesn't end. The first event is on this line.
pub(crate) fn bars_of(alloc: Global, first: usize, events: &[Event]) -> Result<List<Bar>, TextFault>
    ensures bars { IfOk result (AreBars events.now) }
    ensures each { IfOk result (λ bars. length bars ≡ count_by is_begin events.now) }
{
    let mut bars = List::new(alloc);
    for at in 0..events.len() {
        add_event(&mut bars, first.saturating_add(at), at, &events[at])?;
    }
    if have_ended(bars.as_slice()) {
        Ok(bars)
    } else {
        Err(TextFault::Line(first.saturating_add(events.len())))
    }
}

/// Brings the bars past an event, which is on this line.
fn add_event(bars: &mut List<Bar>, line: usize, at: usize, event: &Event) -> Result<(), TextFault>
    ensures { (events : Seq Event) → length events ≡ at → AreOpen events bars.old → OnOk result (AreOpen (events ++ event.now ∷ []) bars.new) }
{
    match *event {
        Event::B(call) => begin(bars, line, at, call),
        Event::A(call) => {
            let bar = live_bar(bars.as_slice(), call, line)?;
            bars.set(call as usize, bar.repaired(at));
            Ok(())
        }
        Event::M(call) => {
            let bar = live_bar(bars.as_slice(), call, line)?;
            bars.set(call as usize, bar.moved(at));
            Ok(())
        }
        Event::C(call) => {
            let bar = live_bar(bars.as_slice(), call, line)?;
            bars.set(call as usize, bar.ended(at, false));
            Ok(())
        }
        Event::X(call) => {
            let bar = live_bar(bars.as_slice(), call, line)?.repaired(at);
            bars.set(call as usize, bar.ended(at, true));
            Ok(())
        }
        Event::R(call) => {
            let bar = live_bar(bars.as_slice(), call, line)?;
            bars.set(call as usize, bar.ended(at, false));
            Ok(())
        }
        Event::S(_) => Ok(()),
        Event::G => Ok(()),
    }
}

/// Adds the bar of a call that begins.
fn begin(bars: &mut List<Bar>, line: usize, at: usize, call: u32) -> Result<(), TextFault>
    ensures { (events : Seq Event) → length events ≡ at → AreOpen events bars.old → OnOk result (AreOpen (events ++ B call ∷ []) bars.new) }
{
    if call as usize != bars.len() {
        return Err(TextFault::Line(line));
    }
    bars.push(Bar::begun(at))?;
    Ok(())
}
