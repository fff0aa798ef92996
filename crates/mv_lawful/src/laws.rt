//! The laws of journals.

ghost use Rattle.mv_lawful.specs.Examples.{OnlyTheFee, AllAgain, NothingAdded, NewRowCounts, OwnWriteCounts, NewDefiner, OtherBranch, SameKey, KeptWriteStays, InOneStep, FirstFaults, StaleMoves, OldestStart, AnsweredAtStart, AnsweredBetween, OtherKind, StaleAnswer};
ghost use Rattle.mv_lawful.specs.Laws.{LowNeverFalls, NoneIsStale, StaleIsPast, RoundsAreCounted, RepairsAreFew, LawfulIsSerial, LawfulNamesCalls, InTurnIsLawful, CollectionsAreUnseen, ShownIsAllShown, ShownIsLawful, ShownIsBounded, ShownHasTheOutcome};
ghost use Rattle.mv_lawful.specs.Serializable.{LawfulIsSerializable};

/// A lawful journal commits or answers each call exactly once. No call has a greater start than the number of commits
/// before its place, so a call that committed before another began stands before it. An answered call stands at its last
/// start.
pub fn lawful_is_serial()
    ensures { LawfulIsSerial }
{}

/// The outcome of a lawful journal is serializable. There is an order of the calls that has each exactly once. Each reply is
/// that of the call alone on the tables that the calls before it leave, and the last tables are the outcome's. A call
/// that had committed before another began stands before it. Read only calls must change nothing.
pub fn lawful_is_serializable()
    ensures { LawfulIsSerializable }
{}

/// Each event of a lawful journal, collections aside, is of a call that exists.
pub fn lawful_names_calls()
    ensures { LawfulNamesCalls }
{}

/// The journal of one worker, in which each call begins and ends before the next begins, is lawful, whatever the calls
/// do. Their order is the call order.
pub fn in_turn_is_lawful()
    ensures { InTurnIsLawful }
{}

/// Collections change nothing of what a journal leads to: the replies, the calls with their rounds, and the tables are
/// those of the journal without them.
pub fn collections_are_unseen()
    ensures { CollectionsAreUnseen }
{}

/// The events that have a line in a text are a journal of their own. It is lawful and bounded if the whole one is, and has
/// the same outcome but for its events: statements only move a call on, and collections only make calls stale.
pub fn shown_is_enough()
    ensures all { ShownIsAllShown }
    ensures lawful { ShownIsLawful }
    ensures bounded { ShownIsBounded }
    ensures outcome { ShownHasTheOutcome }
{}

/// No event lowers low.
pub fn low_never_falls()
    ensures { LowNeverFalls }
{}

/// Without a horizon no live call is stale, whatever the events.
pub fn none_is_stale()
    ensures { NoneIsStale }
{}

/// Whatever the events, a live call is stale only if a horizon is given and more commits than that were made since its
/// start.
pub fn stale_is_past()
    ensures { StaleIsPast }
{}

/// If no event is refused, a live call has used a round for each of its A and M events.
pub fn rounds_are_counted()
    ensures { RoundsAreCounted }
{}

/// A lawful journal has at most as many A events of a call as there are rounds.
pub fn repairs_are_few()
    ensures { RepairsAreFew }
{}

/// Examples of journals, worked out by hand: how many records each round executes, which commit hits which record, and
/// which event is refused why.
pub fn worked_examples()
    ensures fee { OnlyTheFee }
    ensures all { AllAgain }
    ensures nothing { NothingAdded }
    ensures row { NewRowCounts }
    ensures own { OwnWriteCounts }
    ensures definer { NewDefiner }
    ensures branch { OtherBranch }
    ensures key { SameKey }
    ensures kept { KeptWriteStays }
    ensures one { InOneStep }
    ensures first { FirstFaults }
    ensures stale { StaleMoves }
    ensures low { OldestStart }
    ensures answered { AnsweredAtStart }
    ensures between { AnsweredBetween }
    ensures kind { OtherKind }
    ensures stale_answer { StaleAnswer }
{}
