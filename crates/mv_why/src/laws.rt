//! What causes tell.

ghost use Rattle.mv_why.specs.Examples.{OnlyTheFee, NewDefiner, AfterOwnWrite, InAnIf, LeastCommit, LeastKey, TouchedByOld, TouchedByNew, TouchedByBoth, KeptWrite, NothingToTell};
ghost use Rattle.mv_why.specs.Texts.{FeeText, DefinerText, HolderText, TurnText, KeyText};
ghost use Rattle.mv_why.specs.Laws.{ReasonsAreOfTheRule, CausesAreThese, OnlyTheseAreCauses, AsManyAsExecuted, LeastHitIsTold};

/// A record of the new run has no reason if and only if it stays by the rule of repairs, whatever was kept before it.
pub fn reasons_are_of_the_rule()
    ensures { ReasonsAreOfTheRule }
{}

/// The causes of two full runs of a call are the new run's records that a repair doesn't keep, in order, each with its
/// reason. No other list is so.
pub fn causes_are_these()
    ensures are { CausesAreThese }
    ensures only { OnlyTheseAreCauses }
{}

/// They are as many as the records that a repair executes.
pub fn as_many_as_executed()
    ensures { AsManyAsExecuted }
{}

/// The hit that is told is the least of those that hit the record, by its commit, table and key.
pub fn least_hit_is_told()
    ensures { LeastHitIsTold }
{}

/// Examples of causes, worked out by hand.
pub fn worked_examples()
    ensures fee { OnlyTheFee }
    ensures definer { NewDefiner }
    ensures own { AfterOwnWrite }
    ensures holder { InAnIf }
    ensures commit { LeastCommit }
    ensures key { LeastKey }
    ensures old { TouchedByOld }
    ensures fresh { TouchedByNew }
    ensures both { TouchedByBoth }
    ensures kept { KeptWrite }
    ensures none { NothingToTell }
{}

/// Examples of texts of causes, worked out by hand.
pub fn worked_texts()
    ensures fee { FeeText }
    ensures definer { DefinerText }
    ensures holder { HolderText }
    ensures turn { TurnText }
    ensures key { KeyText }
{}
