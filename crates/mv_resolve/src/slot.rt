//! The names of a procedure and their numbers.

use mv_names::named::Named;
use mv_values::list::List;
use mv_values::txt::Txt;

/// A name of a procedure and its number. For a variable that holds rows, `fields` has the names of their columns.
#[derive(Drop)]
pub struct NamedSlot {
    pub name: Txt,
    pub number: u16,
    pub fields: List<Txt>,
}

impl Named for NamedSlot {
    ghost name_of = { λ s. s.name };

    fn name(&self) -> &Txt {
        &self.name
    }
}
