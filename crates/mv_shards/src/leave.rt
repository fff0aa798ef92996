//! What readers show to shards.

ghost use Rattle.std.specs.Prelude.{◌≡◌, ◌≤◌, IfSome};

use mv_grace::grace::{Grace, Naming};
use mv_grace::note::FloorNote;
use mv_grace::pin::Pin;

/// What a reader shows to a shard: nothing, or its pin. A shard that was collected up to a floor has a note of it. A pin
/// takes the note in, and then the reader knows that its rows are there.
pub trait Leave<N: Naming, W> {
    ghost use Rattle.std.specs.Prelude.{ℕ, Option};

    /// The start of the pin, if there is one.
    ghost shown: { Self → Option ℕ };

    /// Takes in a shard's note. If there is a pin, the note's floor is at most its start.
    fn take_in(&mut self, word: &W, note: &mut FloorNote<N>)
        ensures same { note.new ≡ note.old }
        ensures shown { shown self.new ≡ shown self.old }
        ensures below { IfSome (shown self.old) (λ start. note.old ≤ start) };
}

/// Splits off a note of the same floor. It allocates no memory.
pub(crate) fn copy_of<N: Naming>(note: &mut FloorNote<N>, grace: &Grace<N>) -> FloorNote<N>
    ensures same { note.new ≡ note.old }
    ensures note { result ≡ note.old }
{
    let Ok(copy) = note.split(grace) else {
        unreachable!();
    };
    copy
}

impl<N: Naming> Leave<N, ()> for () {
    ghost use Rattle.std.specs.Prelude.{None};

    ghost shown = { λ _. None };

    fn take_in(&mut self, _word: &(), _note: &mut FloorNote<N>) {}
}

impl<N: Naming> Leave<N, Grace<N>> for Pin<N> {
    ghost use Rattle.std.specs.Prelude.{Some};

    ghost shown = { λ p. Some p.reader.start };

    fn take_in(&mut self, word: &Grace<N>, note: &mut FloorNote<N>) {
        self.meet(word, copy_of(note, word));
    }
}

impl<N: Naming> Leave<N, Grace<N>> for Option<Pin<N>> {
    ghost use Rattle.mv_shards.specs.Leaves.{start_shown};

    ghost shown = { start_shown };

    fn take_in(&mut self, word: &Grace<N>, note: &mut FloorNote<N>) {
        if let Some(pin) = self {
            pin.meet(word, copy_of(note, word));
        }
    }
}
