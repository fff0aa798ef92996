//! Checks that a resolved script and its bytes fit together.

ghost use Rattle.std.specs.Prelude.{◌≡◌, ◌<◌, ◌≤◌, ◌+◌, ◌^◌, ◌↔◌, All, IsTrue, length};
ghost use Rattle.mv_opening.specs.Opening.{FitTogether, IsBlockAt};

use mv_catalog::resolved::{CopyInfo, Resolved};
use mv_values::list::List;
use mv_values::schema::TableInfo;
use mv_values::value::Row;

/// Whether the script fits the bytes. Each copy must have a table, and a block within the bytes. There may be at most
/// 256 tables, each with its rows of VALUES. A table must have fewer than 2^32 rows and fewer than 2^32 columns, and
/// there must be fewer than 2^32 bytes. Takes time linear in the number of tables and copies.
pub fn fit_together(resolved: &Resolved, bytes: &[u8]) -> bool
    ensures { IsTrue result ↔ FitTogether resolved.now bytes.now }
{
    let tables = resolved.tables.len();
    tables <= 256
        && resolved.rows.len() == tables
        && are_few(resolved.rows.as_slice())
        && are_narrow(resolved.tables.as_slice())
        && all_stand(resolved.copies.as_slice(), tables, bytes.len())
        && bytes.len() < 1 << 32
}

/// Whether each table has fewer than 2^32 rows.
fn are_few(tables: &[List<Row>]) -> bool
    ensures { IsTrue result ↔ All (λ rows. length rows < 2 ^ 32) tables.now }
{
    tables.iter().all(|rows| rows.len() < 1 << 32)
}

/// Whether each table has fewer than 2^32 columns.
fn are_narrow(tables: &[TableInfo]) -> bool
    ensures { IsTrue result ↔ All (λ table. length table.columns < 2 ^ 32) tables.now }
{
    tables.iter().all(|table| table.columns.len() < 1 << 32)
}

/// Whether each copy has one of so many tables, and a block within so many bytes.
fn all_stand(copies: &[CopyInfo], tables: usize, len: usize) -> bool
    ensures { IsTrue result ↔ All (IsBlockAt tables len) copies.now }
{
    copies.iter().all(|copy| stands(copy, tables, len))
}

/// Whether the copy has one of so many tables, and a block within so many bytes.
fn stands(copy: &CopyInfo, tables: usize, len: usize) -> bool
    ensures { IsTrue result ↔ IsBlockAt tables len copy.now }
{
    (copy.table as usize) < tables && copy.at as usize + copy.len as usize <= len
}
