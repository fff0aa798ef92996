//! The reasons why a command refuses its input, with a number and a line for each.

ghost use Rattle.std.specs.Prelude.{◌≡◌, ◌++◌, IfOk, codes, decimal};
ghost use Rattle.mv_top.specs.Refusals.{event_number, number_of, line_of, journal_line};

use mv_accept::refusal::ScriptRefusal;
use mv_lawful::fault::EventFault;
use mv_values::memory::NoMemory;
use mv_values::txt::Txt;
use std::alloc::Global;

/// Why a command refuses its input. Lines of a journal are counted from 1.
#[derive(Drop)]
pub enum Refusal {
    /// The script isn't accepted.
    Script(ScriptRefusal),
    /// The input of `audit` doesn't begin with a head, or has fewer bytes after it than the head tells.
    Head,
    /// This line of the journal isn't an event, and all lines before it are.
    Line { n: u32 },
    /// The event on this line of the journal is refused, and all events before it are allowed.
    Event { n: u32, fault: EventFault },
    /// The events of the journal are allowed, and this is the first call that isn't done at its end.
    Open { call: u32 },
}

/// Why there is no text: the input is refused, or memory ran out.
#[derive(Drop)]
pub enum NoText {
    Refused(Refusal),
    NoMemory,
}

impl From<NoMemory> for NoText {
    ghost use Rattle.std.specs.Prelude.{◌≡◌};
    ghost use Rattle.mv_top.specs.declared.refusal.NoText.TheVariants as failure;

    ghost from_gives = { λ _ e. e ≡ failure.NoMemory };

    fn from(_error: NoMemory) -> NoText {
        NoText::NoMemory
    }
}

impl From<Refusal> for NoText {
    ghost use Rattle.std.specs.Prelude.{◌≡◌};
    ghost use Rattle.mv_top.specs.declared.refusal.NoText.TheVariants as failure;

    ghost from_gives = { λ refusal e. e ≡ failure.Refused refusal };

    fn from(refusal: Refusal) -> NoText {
        NoText::Refused(refusal)
    }
}

impl Refusal {
    /// Returns the number of the refusal: 1 to 21, or 24 to 26.
    pub fn number(&self) -> u32
        ensures { result ≡ number_of self.now }
    {
        match self {
            Refusal::Script(refusal) => refusal.number(),
            Refusal::Head => 26,
            Refusal::Line { .. } => 15,
            Refusal::Event { fault, .. } => event_number(*fault),
            Refusal::Open { .. } => 21,
        }
    }

    /// Returns the line that reports the refusal, without a line end.
    ///
    /// # Errors
    /// `NoMemory` if memory runs out.
    pub fn line(&self, alloc: Global) -> Result<Txt, NoMemory>
        ensures { IfOk result (λ line. line ≡ line_of self.now) }
    {
        match self {
            Refusal::Script(refusal) => refusal.line(alloc),
            Refusal::Head => Ok(Txt::of(alloc, b"refused 26 audit head")?),
            Refusal::Line { n } => journal_line(alloc, 15, *n),
            Refusal::Event { n, fault } => journal_line(alloc, event_number(*fault), *n),
            Refusal::Open { call } => open_line(alloc, *call),
        }
    }
}

/// Returns the number of the refusal of an event.
fn event_number(fault: EventFault) -> u32
    ensures { result ≡ event_number fault }
{
    match fault {
        EventFault::Order => 16,
        EventFault::Conflict => 17,
        EventFault::Idle => 18,
        EventFault::Rounds => 19,
        EventFault::Stale => 20,
        EventFault::Kind => 25,
    }
}

/// Returns the line of a refusal at a line of the journal.
fn journal_line(alloc: Global, number: u32, n: u32) -> Result<Txt, NoMemory>
    ensures { IfOk result (λ line. line ≡ journal_line number n) }
{
    let mut line = Txt::of(alloc, b"refused ")?;
    line.append(number.to_string(alloc)?.as_bytes())?;
    line.append(b" journal line ")?;
    line.append(n.to_string(alloc)?.as_bytes())?;
    Ok(line)
}

/// Returns the line of `Open`.
fn open_line(alloc: Global, call: u32) -> Result<Txt, NoMemory>
    ensures { IfOk result (λ line. line ≡ codes "refused 21 call " ++ decimal call) }
{
    let mut line = Txt::of(alloc, b"refused 21 call ")?;
    line.append(call.to_string(alloc)?.as_bytes())?;
    Ok(line)
}
