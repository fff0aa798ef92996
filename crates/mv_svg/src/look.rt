//! How shapes and words look.

/// How a shape or words look. The style sheet has a rule for each.
#[derive(Clone, Copy, PartialEq, Eq)]
pub enum Look {
    /// The heading of a picture.
    Head,
    /// A sentence.
    Note,
    /// Words that end at their place.
    Label,
    /// Words that begin at their place.
    Side,
    /// The same, and bold.
    Strong,
    /// Words that are centred at their place.
    Tick,
    /// A line of program text.
    Code,
    /// A line of the grid.
    Grid,
    /// A line that leads the eye.
    Guide,
    /// What was done at first.
    First,
    /// What was done again.
    Again,
    /// What was rolled back.
    Undone,
    /// The mark of an event.
    Mark,
    /// How many are live.
    Live,
    /// An edge from the statement that holds another one.
    Control,
    /// An edge by a variable.
    Variable,
    /// An edge by a table.
    Table,
}
