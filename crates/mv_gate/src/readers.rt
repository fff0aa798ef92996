//! The readers of the shards, whom the gate's lock admits and lets go.

ghost use Rattle.std.specs.Prelude.{◌≡◌, ◌≤◌, ◌+◌, None, IfSome};
ghost use Rattle.mv_grace.specs.Epochs.{out_of};
ghost use Rattle.mv_shards.specs.Leaves.{NeedPins, IsLeave, start_shown};
ghost use Rattle.mv_gate.specs.Readers.{MayAdmit, count};

use mv_grace::grace::{Grace, Naming};
use mv_grace::note::FloorNote;
use mv_grace::pin::Pin;
use mv_grace::turner::Turner;
use mv_seats::board::Making;
use std::marker::Model;

/// Counts the readers of the shards. With a horizon there are none, since then readers need no pins.
#[derive(Drop)]
pub struct Readers<N: Making + Naming> {
    turner: Turner<N>,
    horizon: Option<u32>,
}

impl<N: Making + Naming> Model for Readers<N> {
    ghost use Rattle.std.specs.Prelude.{◌≡◌};
    ghost use Rattle.mv_grace.specs.declared.books.Books.{Books as Known};

    ghost Value = { Known };

    ghost view = { λ r. r.turner };

    ghost invariant = { λ r. r.horizon ≡ N.script.options.horizon };
}

impl<N: Making + Naming> Readers<N> {
    /// Returns the readers before any is admitted.
    pub(crate) fn new(turner: Turner<N>, horizon: Option<u32>) -> Readers<N>
        requires { horizon ≡ N.script.options.horizon }
        ensures { result ≡ turner }
    {
        Readers { turner, horizon }
    }

    /// Admits a reader with this start, which must not be below the current base. Returns no pin if a horizon is given.
    pub(crate) fn admit(&mut self, grace: &Grace<N>, start: u32) -> Option<Pin<N>>
        requires { MayAdmit self.old start }
        ensures leave { IsLeave N.script N.word (start_shown result) start }
        ensures needed { IfSome (start_shown result) (λ _. NeedPins N.script N.word) }
        ensures base { self.new.current.base ≡ self.old.current.base }
        ensures out { out_of self.new ≡ out_of self.old + count (start_shown result) }
    {
        if self.horizon.is_some() {
            return None;
        }
        let Ok(pin) = self.turner.admit(grace, start) else {
            unreachable!();
        };
        Some(pin)
    }

    /// Lets a reader go, if there is a pin.
    pub(crate) fn release(&mut self, grace: &Grace<N>, pin: Option<Pin<N>>)
        ensures base { self.new.current.base ≡ self.old.current.base }
        ensures out { out_of self.new + count (start_shown pin) ≡ out_of self.old }
    {
        if let Some(pin) = pin {
            self.turner.release(grace, pin);
        }
    }

    /// Turns the epochs, if the other one has no reader, and returns a note of the floor. The new base is this number of
    /// commits, which must not be below the current one. Returns none if a horizon is given.
    pub(crate) fn sweep(&mut self, grace: &Grace<N>, commits: u32) -> Option<FloorNote<N>>
        requires { self.old.current.base ≤ commits }
        ensures none { IfSome result (λ _. N.script.options.horizon ≡ None) }
        ensures base { self.new.current.base ≤ commits }
        ensures out { out_of self.new ≡ out_of self.old }
    {
        if self.horizon.is_some() {
            return None;
        }
        self.turner.turn(grace, commits);
        let Ok(note) = self.turner.note(grace) else {
            unreachable!();
        };
        Some(note)
    }
}
