//! The names in scope in a procedure, and their types.

use crate::named::Named;
use mv_values::copied::Copied;
use mv_values::list::List;
use mv_values::memory::NoMemory;
use mv_values::txt::Txt;
use std::alloc::Global;

/// The name of `:found`, which is taken in each procedure.
pub const FOUND: &[u8] = b"found";

/// The type of an expression. `Unknown` follows from a name that isn't declared. That name is already a fault, so
/// `Unknown` fits every place.
#[derive(Clone, Copy)]
pub enum ValueType {
    Int,
    Text,
    Unknown,
}

/// A column of a loop's row.
#[derive(Drop)]
pub struct Field {
    pub name: Txt,
    pub kind: ValueType,
}

/// What a name of a procedure means.
#[derive(Drop)]
pub enum Binding {
    /// A value that can be read and not set: a parameter, or `:found`.
    Fixed(ValueType),
    /// A declared variable.
    Variable(ValueType),
    /// A ROWS parameter.
    Rows(List<Field>),
    /// A loop's row.
    Turn(List<Field>),
}

/// A name of a procedure and its meaning.
#[derive(Drop)]
pub struct Entry {
    pub name: Txt,
    pub binding: Binding,
}

impl Copied for Field {
    ghost use Rattle.std.specs.Prelude.{◌≡◌, IfOk};

    fn copy(&self, alloc: Global) -> Result<Field, NoMemory> {
        Ok(Field {
            name: self.name.copy(alloc)?,
            kind: self.kind,
        })
    }
}

impl Named for Field {
    ghost name_of = { λ f. f.name };

    fn name(&self) -> &Txt {
        &self.name
    }
}

impl Named for Entry {
    ghost name_of = { λ e. e.name };

    fn name(&self) -> &Txt {
        &self.name
    }
}
