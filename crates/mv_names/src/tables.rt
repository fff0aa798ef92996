//! The tables of a script, with their columns, by name.

ghost use Rattle.std.specs.Prelude.{◌≡◌, IfOk};

use crate::index::Index;
use crate::named::Named;
use mv_ast::tree::{ColDef, TableDef};
use mv_values::list::List;
use mv_values::memory::NoMemory;
use mv_values::txt::Txt;
use std::alloc::Global;
use std::marker::Model;

/// A table, with its columns by name. Contracts see the table.
#[derive(Drop)]
pub struct TableNames<'a> {
    definition: &'a TableDef,
    columns: Index<'a, ColDef>,
}

impl<'a> Model for TableNames<'a> {
    ghost use Rattle.std.specs.Prelude.{◌≡◌};
    ghost use Rattle.mv_ast.specs.declared.tree.TableDef.{TableDef as Definition};

    ghost Value = { Definition };

    ghost view = { λ t. t.definition.now };

    ghost invariant = { λ t. t.columns ≡ t.definition.now.columns };
}

impl<'a> Named for TableNames<'a> {
    ghost name_of = { λ t. t.name.text };

    fn name(&self) -> &Txt {
        &self.definition.name.text
    }
}

impl<'a> TableNames<'a> {
    /// Returns a table with its columns by name. Costs a hash of each column's name. Fails if memory runs out.
    fn of(alloc: Global, definition: &'a TableDef) -> Result<TableNames<'a>, NoMemory>
        ensures { IfOk result (λ t. t ≡ definition.now) }
    {
        Ok(TableNames {
            definition,
            columns: Index::of(alloc, definition.columns.as_slice())?,
        })
    }

    /// Borrows the definition.
    pub fn definition(&self) -> &TableDef
        ensures { result.now ≡ self.now }
    {
        self.definition
    }

    /// Borrows the columns.
    pub fn columns(&self) -> &Index<'a, ColDef>
        ensures { result.now ≡ self.now.columns }
    {
        &self.columns
    }
}

/// Returns tables with their columns by name. Costs a hash of each column's name. Fails if memory runs out.
pub fn with_columns(alloc: Global, tables: &[TableDef]) -> Result<List<TableNames<'_>>, NoMemory>
    ensures { IfOk result (λ all. all ≡ tables.now) }
{
    let mut all = List::new(alloc);
    for table in tables {
        all.push(TableNames::of(alloc, table)?)?;
    }
    Ok(all)
}
