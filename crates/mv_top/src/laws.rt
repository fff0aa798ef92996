//! What the text of a run tells.

ghost use Rattle.mv_top.specs.Audits.{YesIsExact, RunsGetYes};
ghost use Rattle.mv_top.specs.History.{TextFixesJournal, TextHasItsJournal};

/// A text fixes its journal: two lawful journals with the same text have the same begins, repairs, moves, commits and
/// answers, in the same order, whatever their programs are. Statements and collections have no line in a text.
pub fn text_fixes_journal()
    ensures { TextFixesJournal }
{}

/// A text has its journal where it is looked for: the lines after the first that is `journal`, up to the first that begins
/// with `table` or is `end`, are those of the events of the lawful journal, without statements and collections.
pub fn text_has_its_journal()
    ensures { TextHasItsJournal }
{}

/// The auditor says yes exactly to the texts of lawful journals with its number of rounds. So it does to the text of each
/// run, by any number of workers and with any horizon.
pub fn yes_is_exact()
    ensures exact { YesIsExact }
    ensures runs { RunsGetYes }
{}
