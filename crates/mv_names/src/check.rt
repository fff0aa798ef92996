//! The faults of a whole script.

ghost use Rattle.std.specs.Prelude.{◌≡◌, ◌++◌, OnOk, nat_lt};
ghost use Rattle.std.specs.List.{flat_map};
ghost use Rattle.mv_names.specs.First.{when, late};
ghost use Rattle.mv_names.specs.Items.{stage, stage_after, lates};
ghost use Rattle.mv_names.specs.Faults as meant;
ghost use Rattle.mv_names.specs.Faults.{parts_faults};

use crate::fault::{TokenFault, add_if};
use crate::index::Index;
use crate::items::{check_call, check_copy, check_procedure, check_table_def};
use crate::labels::check_doubles;
use crate::nested::Scope;
use crate::parts::Parts;
use crate::tables::{TableNames, with_columns};
use mv_ast::tree::{CallDef, CopyDef, Item, ItemKind, ProcDef, TableDef};
use mv_values::list::List;
use mv_values::memory::NoMemory;
use std::alloc::Global;

/// Returns the position of an item's kind in the order of kinds.
fn stage_of(kind: &ItemKind) -> u8
    ensures { result ≡ stage kind.now }
{
    match kind {
        ItemKind::Table(_) => 0,
        ItemKind::Proc(_) => 1,
        ItemKind::Copy(_) => 2,
        ItemKind::Call(_) => 3,
        ItemKind::Journal(_) => 4,
    }
}

/// Returns the least kind allowed after an item.
fn stage_behind(kind: &ItemKind) -> u8
    ensures { result ≡ stage_after kind.now }
{
    match kind {
        ItemKind::Table(_) => 0,
        ItemKind::Proc(_) => 1,
        ItemKind::Copy(_) => 2,
        ItemKind::Call(_) => 3,
        ItemKind::Journal(_) => 5,
    }
}

/// Reports an item whose kind is below the least kind allowed.
fn check_item(least: u8, item: &Item, faults: &mut List<TokenFault>) -> Result<(), NoMemory>
    ensures { OnOk result (faults.new ≡ faults.old ++ when (nat_lt (stage item.now.kind) least) (late item.now.token)) }
{
    add_if(
        faults,
        stage_of(&item.kind) < least,
        TokenFault::late(item.token),
    )
}

/// Adds a fault for each item that follows an item of a later kind, and for each item after a journal. Fails if memory
/// runs out.
pub fn check_order(items: &[Item], faults: &mut List<TokenFault>) -> Result<(), NoMemory>
    ensures { OnOk result (faults.new ≡ faults.old ++ lates 0 items.now) }
{
    let mut least = 0;
    for item in items {
        check_item(least, item, faults)?;
        least = least.max(stage_behind(&item.kind));
    }
    Ok(())
}

fn check_tables(
    alloc: Global,
    index: &Index<'_, TableNames<'_>>,
    tables: &[TableNames<'_>],
    faults: &mut List<TokenFault>,
) -> Result<(), NoMemory>
    ensures { OnOk result (faults.new ≡ faults.old ++ flat_map (meant.table index.now) tables.now) }
{
    for table in tables {
        check_table_def(alloc, index, table, faults)?;
    }
    Ok(())
}

fn check_procedures(
    alloc: Global,
    tables: &Index<'_, TableNames<'_>>,
    procedures: &[ProcDef],
    faults: &mut List<TokenFault>,
) -> Result<(), NoMemory>
    ensures { OnOk result (faults.new ≡ faults.old ++ flat_map (meant.procedure tables.now) procedures.now) }
{
    for procedure in procedures {
        check_procedure(alloc, tables, procedure, faults)?;
    }
    Ok(())
}

fn check_copies(
    tables: &Index<'_, TableNames<'_>>,
    copies: &[CopyDef],
    faults: &mut List<TokenFault>,
) -> Result<(), NoMemory>
    ensures { OnOk result (faults.new ≡ faults.old ++ flat_map (meant.copy tables.now) copies.now) }
{
    for copy in copies {
        check_copy(tables, copy, faults)?;
    }
    Ok(())
}

fn check_calls(
    alloc: Global,
    procedures: &[ProcDef],
    calls: &[CallDef],
    faults: &mut List<TokenFault>,
) -> Result<(), NoMemory>
    ensures { OnOk result (faults.new ≡ faults.old ++ flat_map (meant.call procedures.now) calls.now) }
{
    let index = Index::of(alloc, procedures)?;
    for call in calls {
        check_call(&index, call, faults)?;
    }
    Ok(())
}

fn check_table_names(
    alloc: Global,
    tables: &[TableDef],
    faults: &mut List<TokenFault>,
) -> Result<(), NoMemory>
    ensures { OnOk result (faults.new ≡ faults.old ++ meant.table_doubles tables.now) }
{
    check_doubles(&mut Scope::new(alloc), tables, faults)
}

fn check_procedure_names(
    alloc: Global,
    procedures: &[ProcDef],
    faults: &mut List<TokenFault>,
) -> Result<(), NoMemory>
    ensures { OnOk result (faults.new ≡ faults.old ++ meant.procedure_doubles procedures.now) }
{
    check_doubles(&mut Scope::new(alloc), procedures, faults)
}

/// Adds all faults of the items except those of their order. Fails if memory runs out.
pub fn check_parts(
    alloc: Global,
    parts: &Parts,
    faults: &mut List<TokenFault>,
) -> Result<(), NoMemory>
    ensures { OnOk result (faults.new ≡ faults.old ++ parts_faults parts.now) }
{
    let tables = parts.tables.as_slice();
    let procedures = parts.procedures.as_slice();
    check_table_names(alloc, tables, faults)?;
    check_procedure_names(alloc, procedures, faults)?;
    let tables = with_columns(alloc, tables)?;
    let index = Index::of(alloc, tables.as_slice())?;
    check_tables(alloc, &index, tables.as_slice(), faults)?;
    check_procedures(alloc, &index, procedures, faults)?;
    check_copies(&index, parts.copies.as_slice(), faults)?;
    check_calls(alloc, procedures, parts.calls.as_slice(), faults)?;
    Ok(())
}
