//! Records that a log lends.

ghost use Rattle.std.specs.Prelude.{◌≡◌};
ghost use Rattle.std.specs.Option.{option_copied};
ghost use Rattle.mv_log.specs.Parts.{first_of};
ghost use Rattle.mv_log.specs.Fitting.{sizes, HeadFits, AreSound};
ghost use Rattle.mv_log.specs.Heads.{record_at};

use crate::head::Head;
use crate::lists::Lists;
use crate::pred_ref::Preds;
use crate::var_read::VarRead;
use mv_record::record::Slot;
use mv_values::calls::End;
use mv_values::patch::Write;
use mv_values::txt::Txt;
use mv_values::value::Row;
use std::marker::Model;

/// A record that is lent. Contracts see the record.
#[derive(Drop)]
pub struct RecordRef<'a> {
    lists: &'a Lists,
    head: &'a Head,
}

impl<'a> Model for RecordRef<'a> {
    ghost use Rattle.mv_record.specs.declared.record.Record.{Record};

    ghost Value = { Record };

    ghost use Rattle.mv_log.specs.Heads.{record_at};
    ghost use Rattle.mv_log.specs.Fitting.{sizes, HeadFits, AreSound};

    ghost view = { λ r. record_at r.lists.now r.head.now };

    ghost invariant = { λ r. AreSound r.lists.now × HeadFits (sizes r.lists.now) r.head.now };
}

/// Returns the first item.
fn first<T>(items: &[T]) -> Option<&T>
    ensures { option_copied result ≡ first_of items.now }
{
    match items {
        [] => None,
        [item, ..] => Some(item),
    }
}

impl<'a> RecordRef<'a> {
    /// Lends the record with this head.
    pub(crate) fn of(lists: &'a Lists, head: &'a Head) -> RecordRef<'a>
        requires sound { AreSound lists.now }
        requires fits { HeadFits (sizes lists.now) head.now }
        ensures { result ≡ record_at lists.now head.now }
    {
        RecordRef { lists, head }
    }

    /// Returns the number of its statement.
    pub fn statement(&self) -> u16
        ensures { result ≡ self.now.spot.statement }
    {
        self.head.statement
    }

    /// Lends the iterations of the enclosing FORs, outermost first.
    pub fn turns(&self) -> &'a [u32]
        ensures { result.now ≡ self.now.spot.turns }
    {
        self.lists.turns.part(self.head.turns)
    }

    /// Returns the number of the record of the innermost enclosing IF or FOR.
    pub fn parent(&self) -> Option<u32>
        ensures { result ≡ self.now.parent }
    {
        self.head.parent
    }

    /// Lends the variables that it reads.
    pub fn reads(&self) -> &'a [VarRead]
        ensures { result.now ≡ self.now.reads }
    {
        self.lists.reads.part(self.head.reads)
    }

    /// Lends its predicates.
    #[tactic(auto, using(crate::proofs::Sides::asked_part))]
    pub fn preds(&self) -> Preds<'a>
        ensures { result ≡ self.now.preds }
    {
        let side = self.lists.side(self.head.side);
        Preds::of(self.lists.preds.part(side.preds), self.lists)
    }

    /// Lends the variables that it sets.
    pub fn sets(&self) -> &'a [Slot]
        ensures { result.now ≡ self.now.sets }
    {
        self.lists.sets.part(self.head.sets)
    }

    /// Lends the rows that its FOR iterates over.
    pub fn rows(&self) -> &'a [Row]
        ensures { result.now ≡ self.now.rows }
    {
        let side = self.lists.side(self.head.side);
        self.lists.rows.part(side.rows)
    }

    /// Lends its writes, in key order.
    pub fn writes(&self) -> &'a [Write]
        ensures { result.now ≡ self.now.writes }
    {
        let side = self.lists.side(self.head.side);
        self.lists.writes.part(side.writes)
    }

    /// Lends the line that it adds.
    pub fn line(&self) -> Option<&'a Txt>
        ensures { option_copied result ≡ self.now.line }
    {
        let side = self.lists.side(self.head.side);
        first(self.lists.lines.part(side.lines))
    }

    /// Lends the reason, if the call ends here.
    pub fn end(&self) -> Option<&'a End>
        ensures { option_copied result ≡ self.now.end }
    {
        let side = self.lists.side(self.head.side);
        first(self.lists.ends.part(side.ends))
    }
}
