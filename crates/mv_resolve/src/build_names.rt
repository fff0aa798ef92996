//! Numbers for names: columns, tables, and the variables of a procedure.

ghost use Rattle.std.specs.Prelude.{◌≡◌, ◌+◌, ◌++◌, ◌∷◌, [], IfOk, OnOk, map};
ghost use Rattle.std.specs.Option.{option_copied};
ghost use Rattle.mv_names.specs.Scope.{found};
ghost use Rattle.mv_names.specs.Statements.{table_named};
ghost use Rattle.mv_resolve.specs.Building.{small, tiny, column_number, table_place, columns_in, column_name, slot, param_fields, param_slots, variable_slots, found_number, slots_of, number_in, number_of, numbers_of, fields_in, field_in, names_of};

use crate::slot::NamedSlot;
use mv_ast::tree::{ColDef, Name, Param, ParamKind, ProcDef, VarDef};
use mv_names::index::Index;
use mv_names::named::place;
use mv_names::nested::Scope;
use mv_names::scope::FOUND;
use mv_names::tables::TableNames;
use mv_values::copied::Copied;
use mv_values::list::List;
use mv_values::memory::NoMemory;
use mv_values::txt::Txt;
use std::alloc::Global;

/// Converts to 16 bits; greater numbers become 65,535.
pub(crate) fn small_number(n: usize) -> u16
    ensures { result ≡ small n }
{
    n.min(65_535) as u16
}

/// Converts to 8 bits; greater numbers become 255.
pub(crate) fn tiny_number(n: usize) -> u8
    ensures { result ≡ tiny n }
{
    n.min(255) as u8
}

/// Adds two numbers. Fails on overflow, as if memory ran out.
pub(crate) fn sum(a: usize, b: usize) -> Result<usize, NoMemory>
    ensures { IfOk result (λ n. n ≡ a + b) }
{
    match a.checked_add(b) {
        Some(n) => Ok(n),
        None => Err(NoMemory),
    }
}

/// Appends a copy of an item.
pub(crate) fn push_copy<T: Copied>(
    alloc: Global,
    all: &mut List<T>,
    item: &T,
) -> Result<(), NoMemory>
    ensures { OnOk result (all.new ≡ all.old ++ item.now ∷ []) }
{
    all.push(item.copy(alloc)?)
}

// Columns and tables

/// Returns the number of a column; 0 if the table doesn't exist. Costs a hash of the name.
pub(crate) fn column(table: Option<&TableNames<'_>>, name: &Name) -> u16
    ensures { result ≡ column_number (columns_in (option_copied table.entry)) name.now }
{
    match table {
        None => 0,
        Some(table) => small_number(table.columns().place(&name.text)),
    }
}

/// Returns the numbers of columns.
pub(crate) fn columns(
    alloc: Global,
    table: Option<&TableNames<'_>>,
    names: &[Name],
) -> Result<List<u16>, NoMemory>
    ensures { IfOk result (λ all. all ≡ map (column_number (columns_in (option_copied table.entry))) names.now) }
{
    let mut all = List::new(alloc);
    for name in names {
        all.push(column(table, name))?;
    }
    Ok(all)
}

/// Returns the number of a table, and the table if it exists. Costs a hash of the name.
pub(crate) fn numbered_table<'a, 'b>(
    tables: &Index<'a, TableNames<'b>>,
    name: &Name,
) -> (u16, Option<&'a TableNames<'b>>)
    ensures number { result.0 ≡ small (table_place tables.now name.now) }
    ensures table { option_copied result.1 ≡ table_named tables.now name.now.text }
{
    let place = tables.place(&name.text);
    (small_number(place), tables.at(place))
}

// The variables of a procedure

/// Returns a slot with this number, name and column names.
pub(crate) fn slot_at(
    alloc: Global,
    number: usize,
    name: &Txt,
    fields: List<Txt>,
) -> Result<NamedSlot, NoMemory>
    ensures { IfOk result (λ s. s ≡ slot number name.now fields) }
{
    Ok(NamedSlot {
        name: name.copy(alloc)?,
        number: small_number(number),
        fields,
    })
}

/// Returns the names of columns.
fn column_names(alloc: Global, columns: &[ColDef]) -> Result<List<Txt>, NoMemory>
    ensures { IfOk result (λ all. all ≡ map column_name columns.now) }
{
    let mut all = List::new(alloc);
    for column in columns {
        push_copy(alloc, &mut all, &column.name.text)?;
    }
    Ok(all)
}

/// Returns the texts of names.
pub(crate) fn texts(alloc: Global, names: &[Name]) -> Result<List<Txt>, NoMemory>
    ensures { IfOk result (λ all. all ≡ names_of names.now) }
{
    let mut all = List::new(alloc);
    for name in names {
        push_copy(alloc, &mut all, &name.text)?;
    }
    Ok(all)
}

/// Returns the column names of a ROWS parameter; empty for a scalar one.
fn fields_of_param(alloc: Global, kind: &ParamKind) -> Result<List<Txt>, NoMemory>
    ensures { IfOk result (λ all. all ≡ param_fields kind.now) }
{
    match kind {
        ParamKind::One(_) => Ok(List::new(alloc)),
        ParamKind::Many(columns) => column_names(alloc, columns.as_slice()),
    }
}

fn add_params<'a>(
    alloc: Global,
    params: &'a [Param],
    slots: &mut Scope<'a, NamedSlot>,
) -> Result<(), NoMemory>
    ensures { OnOk result (slots.new ≡ slots.old ++ param_slots 0 params.now) }
{
    for (i, param) in params.iter().enumerate() {
        let name = &param.name.text;
        let fields = fields_of_param(alloc, &param.kind)?;
        slots.push(name.as_slice(), slot_at(alloc, i, name, fields)?)?;
    }
    Ok(())
}

fn add_variables<'a>(
    alloc: Global,
    first: usize,
    vars: &'a [VarDef],
    slots: &mut Scope<'a, NamedSlot>,
) -> Result<(), NoMemory>
    ensures { OnOk result (slots.new ≡ slots.old ++ variable_slots first vars.now) }
{
    let mut number = first;
    for var in vars {
        let name = &var.name.text;
        let slot = slot_at(alloc, number, name, List::new(alloc))?;
        slots.push(name.as_slice(), slot)?;
        number = sum(number, 1)?;
    }
    Ok(())
}

/// Returns the number of `:found`.
pub(crate) fn number_of_found(definition: &ProcDef) -> Result<usize, NoMemory>
    ensures { IfOk result (λ n. n ≡ found_number definition.now) }
{
    sum(definition.params.len(), definition.vars.len())
}

/// Returns the slot of `:found`.
fn found_slot(alloc: Global, definition: &ProcDef) -> Result<NamedSlot, NoMemory>
    ensures { IfOk result (λ s. s ≡ slot (found_number definition.now) found.name []) }
{
    let name = Txt::of(alloc, FOUND)?;
    slot_at(alloc, number_of_found(definition)?, &name, List::new(alloc))
}

/// Returns the variables of a procedure, without its loop rows.
pub(crate) fn slots<'a>(
    alloc: Global,
    definition: &'a ProcDef,
) -> Result<Scope<'a, NamedSlot>, NoMemory>
    ensures { IfOk result (λ all. all ≡ slots_of definition.now) }
{
    let mut all = Scope::new(alloc);
    let params = definition.params.as_slice();
    add_params(alloc, params, &mut all)?;
    add_variables(alloc, params.len(), definition.vars.as_slice(), &mut all)?;
    all.push(FOUND, found_slot(alloc, definition)?)?;
    Ok(all)
}

/// Returns the number of a variable that was sought; 0 if there is none.
pub(crate) fn number_in(sought: Option<&NamedSlot>) -> u16
    ensures { result ≡ number_in (option_copied sought.entry) }
{
    match sought {
        Some(slot) => slot.number,
        None => 0,
    }
}

/// Returns the number of a variable.
pub(crate) fn variable(slots: &Scope<'_, NamedSlot>, name: &Name) -> u16
    ensures { result ≡ number_of slots.now name.now }
{
    number_in(slots.find(&name.text))
}

/// Returns the numbers of variables.
pub(crate) fn variables(
    alloc: Global,
    slots: &Scope<'_, NamedSlot>,
    names: &[Name],
) -> Result<List<u16>, NoMemory>
    ensures { IfOk result (λ all. all ≡ numbers_of slots.now names.now) }
{
    let mut all = List::new(alloc);
    for name in names {
        all.push(variable(slots, name))?;
    }
    Ok(all)
}

/// Returns the column names of a variable that holds rows; empty for any other.
fn fields_in(sought: Option<&NamedSlot>) -> &[Txt]
    ensures { result.now ≡ fields_in (option_copied sought.entry) }
{
    match sought {
        Some(slot) => slot.fields.as_slice(),
        None => &[],
    }
}

/// Returns copies of a variable's column names.
pub(crate) fn fields(alloc: Global, sought: Option<&NamedSlot>) -> Result<List<Txt>, NoMemory>
    ensures { IfOk result (λ all. all ≡ fields_in (option_copied sought.entry)) }
{
    match sought {
        Some(slot) => slot.fields.copy(alloc),
        None => Ok(List::new(alloc)),
    }
}

/// Returns the index of a column in a loop's row.
pub(crate) fn field(row: Option<&NamedSlot>, column: &Name) -> u16
    ensures { result ≡ field_in (option_copied row.entry) column.now }
{
    small_number(place(fields_in(row), &column.text))
}
