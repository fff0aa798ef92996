//! The verdict on a report.

/// Whether a report is the text of a lawful journal. Lines are counted from 1, and each LF ends one.
#[derive(Clone, Copy)]
pub enum Verdict {
    /// It is the text of a lawful journal.
    Yes,
    /// It has no line `journal`.
    NoJournal,
    /// This is the line of the first fault of its journal. If the journal has no fault, it is the first line in which
    /// the report differs from the text of that journal.
    Line { n: u32 },
}
