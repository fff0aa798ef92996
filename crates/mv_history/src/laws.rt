//! The laws of changes and of paths.

ghost use Rattle.mv_history.specs.Examples.{RowsDiffer, OnlyTheFee, AllAgain, NewDefiner, OwnWriteCounts, KeptWriteStays, OtherWriteTouches};
ghost use Rattle.mv_history.specs.Laws.{ChangesAreListed, ChangesCover, ChangesJoin, FrontKeepsPaths, NoHitIsUnhit, OnlyTheseAreListed};

/// The changes between two databases whose keys rise cover the step from one to the other: those of each key lead from
/// its old row to its new one.
pub fn changes_cover()
    ensures { ChangesCover }
{}

/// The changes between two databases whose keys rise are in the order of tables and keys, and each key has its own change
/// alone, if its row differs.
pub fn changes_are_listed()
    ensures { ChangesAreListed }
{}

/// No other list of changes is so.
pub fn only_these_are_listed()
    ensures { OnlyTheseAreListed }
{}

/// Changes that cover two steps one after the other cover both together.
pub fn changes_join()
    ensures { ChangesJoin }
{}

/// If validation finds no hit among the changes of commits, no change of any commit hits a record.
pub fn no_hit_is_unhit()
    ensures { NoHitIsUnhit }
{}

/// The path of a record depends only on the records before it.
pub fn front_keeps_paths()
    ensures { FrontKeepsPaths }
{}

/// Examples of hits and of kept records, worked out by hand.
pub fn worked_examples()
    ensures rows { RowsDiffer }
    ensures fee { OnlyTheFee }
    ensures all { AllAgain }
    ensures definer { NewDefiner }
    ensures own { OwnWriteCounts }
    ensures kept { KeptWriteStays }
    ensures other { OtherWriteTouches }
{}
