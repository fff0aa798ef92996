//! Counts statements.

ghost use Rattle.std.specs.Prelude.{◌≡◌, ◌<◌, ◌^◌, map};
ghost use Rattle.mv_catalog.specs.Statements.{size, total_size};

use crate::resolved::RStmt;

/// Counts these statements, nested ones included.
#[cycle(sizing)]
pub fn size_of_all(statements: &[RStmt]) -> u16
    requires { total_size (map size statements.now) < 2 ^ 16 }
    ensures { result ≡ total_size (map size statements.now) }
{
    let mut all = 0;
    for statement in statements {
        all += size_of(statement);
    }
    all
}

/// Counts a statement and those nested in it.
#[cycle(sizing)]
pub fn size_of(statement: &RStmt) -> u16
    requires { size statement.now < 2 ^ 16 }
    ensures { result ≡ size statement.now }
{
    match statement {
        RStmt::ForSelect { body, .. } | RStmt::ForRows { body, .. } => {
            1 + size_of_all(body.as_slice())
        }
        RStmt::Branch { yes, no, .. } => {
            1 + (size_of_all(yes.as_slice()) + size_of_all(no.as_slice()))
        }
        _ => 1,
    }
}
