//! What verdicts tell.

ghost use Rattle.mv_audit.specs.Laws.{YesIsLawful, LawfulIsYes};
ghost use Rattle.mv_audit.specs.Examples.{Repaired, ChangedCount, NoRepair, NoEnd, NoReport, Lone, ZeroAhead, Statement, Collection, Further, NoLastEnd, Returns, Quoted};

/// A report with the verdict Yes is the text of a lawful journal. The text of a lawful journal gets Yes under its number
/// of rounds, whatever its horizon was, if its outcome is plain: each line of a reply is one of PRINT, and the numbers of
/// its calls have 32 bits.
pub fn yes_is_exact()
    ensures only { YesIsLawful }
    ensures all { LawfulIsYes }
{}

/// Examples of reports and their verdicts, worked out by hand.
pub fn worked_examples()
    ensures repaired { Repaired }
    ensures count { ChangedCount }
    ensures no_repair { NoRepair }
    ensures no_end { NoEnd }
    ensures no_report { NoReport }
    ensures lone { Lone }
    ensures zero { ZeroAhead }
    ensures statement { Statement }
    ensures collection { Collection }
    ensures further { Further }
    ensures no_last_end { NoLastEnd }
    ensures returns { Returns }
    ensures quoted { Quoted }
{}
