//! Resolves a script: returns its program or its first fault.

ghost use Rattle.std.specs.Prelude.{◌≡◌, [], IfOk};
ghost use Rattle.mv_ast.specs.declared.tree.Script.{Script as ScriptValue};
ghost use Rattle.mv_ast.specs.Keys.{HasKeys};
ghost use Rattle.mv_ast.specs.Limits.{script_passes};
ghost use Rattle.mv_names.specs.First.{IsFirst};
ghost use Rattle.mv_names.specs.Items.{parts_of};
ghost use Rattle.mv_names.specs.Faults.{faults};
ghost use Rattle.mv_resolve.specs.Resolving.{Refuses, Resolves};
ghost use Rattle.mv_catalog.specs.Text.{FitsText};

use crate::build::built;
use crate::refused::NameFault;
use mv_ast::tree::Script;
use mv_catalog::resolved::Resolved;
use mv_names::check::{check_order, check_parts};
use mv_names::fault::{FaultKind, TokenFault, first_of};
use mv_names::parts::{Parts, part};
use mv_values::list::List;
use std::alloc::Global;

/// Converts a fault to an error.
fn refused(fault: TokenFault) -> NameFault
    ensures { (script : ScriptValue) → IsFirst (faults script) fault → Refuses script result }
{
    let token = fault.token;
    match fault.kind {
        FaultKind::UnknownName => NameFault::UnknownName { token },
        FaultKind::DoubleName => NameFault::DoubleName { token },
        FaultKind::WrongType => NameFault::WrongType { token },
        FaultKind::KeyAssigned => NameFault::KeyAssigned { token },
        FaultKind::Late => NameFault::Late { token },
        FaultKind::Writes => NameFault::Writes { token },
    }
}

/// Returns the program of these parts, or the first of these faults.
fn answer(alloc: Global, parts: &Parts, found: &[TokenFault]) -> Result<Resolved, NameFault>
    ensures { (script : ScriptValue) → found.now ≡ faults script → parts.now ≡ parts_of script.items → Resolves script result }
{
    match first_of(found) {
        None => Ok(built(alloc, parts)?),
        Some(fault) => Err(refused(fault)),
    }
}

/// Resolves the names of a script, and consumes the script. If it has faults of names or types, the first is returned
/// as the error: the one at the least token, and at one token the one whose kind comes first in `NameFault`. Fails with
/// `NoMemory` only if memory runs out. Costs the size of the script, a few hashes of each name, a search of at most 32
/// names for each column of a loop's row, and one of at most 8 for each column of SET.
///
/// The program is well formed if the script is within the limits and each table names a key column, as the grammar
/// requires.
pub fn resolve(alloc: Global, script: Script) -> Result<Resolved, NameFault>
    ensures resolves { Resolves script result }
    ensures fits { script_passes script ≡ [] → HasKeys script → IfOk result FitsText }
{
    let mut faults = List::new(alloc);
    check_order(script.items.as_slice(), &mut faults)?;
    let parts = part(alloc, script)?;
    check_parts(alloc, &parts, &mut faults)?;
    answer(alloc, &parts, faults.as_slice())
}
