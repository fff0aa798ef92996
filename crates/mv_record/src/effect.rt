//! The effect of a single statement.

use crate::record::Slot;
use mv_values::calls::End;
use mv_values::list::List;
use mv_values::patch::Write;
use mv_values::pred::Pred;
use mv_values::txt::Txt;
use mv_values::value::Row;

/// The effect of a statement itself: its record without position, controller and reads.
#[derive(Drop)]
pub struct Effect {
    /// The predicates it queries tables with. Empty if it looks at no rows.
    pub preds: List<Pred>,
    /// The variables it sets: its targets in the order of the text, then `:found`.
    pub sets: List<Slot>,
    /// The rows that a FOR iterates over.
    pub rows: List<Row>,
    /// The writes it makes, in key order.
    pub writes: List<Write>,
    /// The line that a PRINT adds.
    pub line: Option<Txt>,
    /// The reason, if the call ends here.
    pub end: Option<End>,
}
