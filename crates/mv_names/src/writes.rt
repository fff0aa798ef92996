//! Faults of READ ONLY procedures.

ghost use Rattle.std.specs.Prelude.{◌≡◌, ◌++◌, OnOk};
ghost use Rattle.mv_names.specs.Writes.{writes_of, all_writes, writes};

use crate::fault::TokenFault;
use mv_ast::tree::{ProcDef, Stmt};
use mv_values::list::List;
use mv_values::memory::NoMemory;

/// Adds a fault for each change of a table in statements.
#[cycle(statements)]
fn check_all(body: &[Stmt], faults: &mut List<TokenFault>) -> Result<(), NoMemory>
    ensures { OnOk result (faults.new ≡ faults.old ++ all_writes body.now) }
{
    for statement in body {
        check_one(statement, faults)?;
    }
    Ok(())
}

/// Adds a fault for each change of a table in a statement.
#[cycle(statements)]
fn check_one(statement: &Stmt, faults: &mut List<TokenFault>) -> Result<(), NoMemory>
    ensures { OnOk result (faults.new ≡ faults.old ++ writes_of statement.now) }
{
    match statement {
        Stmt::ForSelect { body, .. } | Stmt::ForRows { body, .. } => {
            check_all(body.as_slice(), faults)
        }
        Stmt::Branch { yes, no, .. } => {
            check_all(yes.as_slice(), faults)?;
            check_all(no.as_slice(), faults)
        }
        Stmt::Insert { table, .. } | Stmt::Update { table, .. } | Stmt::Delete { table, .. } => {
            faults.push(TokenFault::writing(table.token))
        }
        Stmt::Assign { .. }
        | Stmt::Select { .. }
        | Stmt::Total { .. }
        | Stmt::Print { .. }
        | Stmt::Rollback { .. } => Ok(()),
    }
}

/// Adds a fault for each change of a table in a READ ONLY procedure.
pub(crate) fn check_writes(
    procedure: &ProcDef,
    faults: &mut List<TokenFault>,
) -> Result<(), NoMemory>
    ensures { OnOk result (faults.new ≡ faults.old ++ writes procedure.now) }
{
    if procedure.read_only {
        check_all(procedure.body.as_slice(), faults)?;
    }
    Ok(())
}
