//! What the text of a run tells.

ghost use Rattle.mv_report.specs.Shown.{TextFixesEvents};
ghost use Rattle.mv_report.specs.JournalLines.{TextHasJournal};

/// The text of a run fixes its events: two runs with the same text have the same events that have a line, whatever their
/// tables are. PRINT puts texts in quotes, so no line of a reply can pass for the line where the journal begins.
pub fn text_fixes_events()
    ensures { TextFixesEvents }
{}

/// The text of a run has the lines of its journal where they are looked for: after the first line that is `journal`, and
/// before the next one that begins with `table` or is `end`. These are the lines of the events that have one, whatever the
/// replies and the tables are.
pub fn text_has_journal()
    ensures { TextHasJournal }
{}
