//! The faults of statements.

ghost use Rattle.std.specs.Prelude.{◌≡◌, ◌++◌, [], map, OnOk, IfOk};
ghost use Rattle.std.specs.List.{flat_map};
ghost use Rattle.std.specs.Option.{option_copied};
ghost use Rattle.mv_names.specs.Scope.{entry_of, columns_of, fields_of, types_of, selected_field, turn_with};
ghost use Rattle.mv_names.specs.Typing.{column_faults};
ghost use Rattle.mv_ast.specs.declared.tree.Agg.TheVariants.{Sum};
ghost use Rattle.mv_names.specs.Statements.{missing_table, target_type, target_faults, target, targets, names_token, values_token, cond_faults, where_faults, order_faults, offset_faults, agg_type, agg_faults, turn_name, rows_faults, values_faults, is_key, item_faults, assign, select, total, insert, update, delete};

use crate::exprs::{check_column, check_fit, check_operand, check_placed, column_kind};
use crate::fault::{TokenFault, add_if};
use crate::index::Index;
use crate::labels::check_doubles;
use crate::named::has_name;
use crate::nested::Scope;
use crate::scope::{Binding, Entry, Field, ValueType};
use crate::tables::TableNames;
use mv_ast::tree::{Agg, ColDef, Cond, Expr, Name, Selection, SetItem, Sort};
use mv_values::copied::Copied;
use mv_values::list::List;
use mv_values::memory::NoMemory;
use std::alloc::Global;

/// Returns the columns of a table, if the table exists.
pub(crate) fn columns_in<'a>(table: Option<&'a TableNames<'_>>) -> Option<&'a Index<'a, ColDef>>
    ensures { option_copied result ≡ columns_of (option_copied table.entry) }
{
    match table {
        None => None,
        Some(table) => Some(table.columns()),
    }
}

/// Reports a table that doesn't exist.
pub(crate) fn check_table(
    table: Option<&TableNames<'_>>,
    token: u32,
    faults: &mut List<TokenFault>,
) -> Result<(), NoMemory>
    ensures { OnOk result (faults.new ≡ faults.old ++ missing_table token (option_copied table.entry)) }
{
    if table.is_none() {
        faults.push(TokenFault::unknown(token))?;
    }
    Ok(())
}

// Targets

/// Reports a target that isn't a declared variable. Returns the target's type.
fn check_target(
    scope: &Scope<'_, Entry>,
    name: &Name,
    faults: &mut List<TokenFault>,
) -> Result<ValueType, NoMemory>
    ensures kind { IfOk result (λ t. t ≡ target_type (entry_of scope.now name.now.text)) }
    ensures faults { OnOk result (faults.new ≡ faults.old ++ target_faults name.now.token (entry_of scope.now name.now.text)) }
{
    match scope.find(&name.text) {
        None => {
            faults.push(TokenFault::unknown(name.token))?;
            Ok(ValueType::Unknown)
        }
        Some(entry) => match &entry.binding {
            Binding::Variable(kind) => Ok(*kind),
            _ => {
                faults.push(TokenFault::wrong(name.token))?;
                Ok(ValueType::Unknown)
            }
        },
    }
}

/// Checks a target that receives a value of this type.
fn check_taking(
    scope: &Scope<'_, Entry>,
    value: ValueType,
    name: &Name,
    faults: &mut List<TokenFault>,
) -> Result<(), NoMemory>
    ensures { OnOk result (faults.new ≡ faults.old ++ target scope.now value name.now) }
{
    let kind = check_target(scope, name, faults)?;
    check_fit(faults, value, name.token, kind)?;
    Ok(())
}

/// Checks a target for each value.
fn check_targets(
    scope: &Scope<'_, Entry>,
    values: &[ValueType],
    to: &[Name],
    faults: &mut List<TokenFault>,
) -> Result<(), NoMemory>
    ensures { OnOk result (faults.new ≡ faults.old ++ targets scope.now values.now to.now) }
{
    for i in 0..to.len() {
        let value = match values.get(i) {
            Some(value) => *value,
            None => ValueType::Unknown,
        };
        check_taking(scope, value, &to[i], faults)?;
    }
    Ok(())
}

// Clauses

/// Returns the first token of a list, or the given one if the list is empty.
fn token_of_names(names: &[Name], token: u32) -> u32
    ensures { result ≡ names_token names.now token }
{
    match names {
        [name, ..] => name.token,
        [] => token,
    }
}

fn token_of_values(values: &[Expr], token: u32) -> u32
    ensures { result ≡ values_token values.now token }
{
    match values {
        [value, ..] => value.token,
        [] => token,
    }
}

/// Reports each column that doesn't exist. Returns the types of the columns.
fn check_columns(
    alloc: Global,
    columns: Option<&Index<'_, ColDef>>,
    names: &[Name],
    faults: &mut List<TokenFault>,
) -> Result<List<ValueType>, NoMemory>
    ensures kinds { IfOk result (λ all. all ≡ types_of (option_copied columns.entry) names.now) }
    ensures faults { OnOk result (faults.new ≡ faults.old ++ flat_map (column_faults (option_copied columns.entry)) names.now) }
{
    let mut kinds = List::new(alloc);
    for name in names {
        kinds.push(check_column(columns, name, faults)?)?;
    }
    Ok(kinds)
}

/// Checks a condition of WHERE.
fn check_cond(
    scope: &Scope<'_, Entry>,
    columns: Option<&Index<'_, ColDef>>,
    cond: &Cond,
    faults: &mut List<TokenFault>,
) -> Result<(), NoMemory>
    ensures { OnOk result (faults.new ≡ faults.old ++ cond_faults scope.now (option_copied columns.entry) cond.now) }
{
    let place = check_column(columns, &cond.column, faults)?;
    check_placed(place, scope, &cond.right, faults)
}

fn check_where(
    scope: &Scope<'_, Entry>,
    columns: Option<&Index<'_, ColDef>>,
    conds: &[Cond],
    faults: &mut List<TokenFault>,
) -> Result<(), NoMemory>
    ensures { OnOk result (faults.new ≡ faults.old ++ where_faults scope.now (option_copied columns.entry) conds.now) }
{
    for cond in conds {
        check_cond(scope, columns, cond, faults)?;
    }
    Ok(())
}

fn check_order(
    columns: Option<&Index<'_, ColDef>>,
    sorts: &[Sort],
    faults: &mut List<TokenFault>,
) -> Result<(), NoMemory>
    ensures { OnOk result (faults.new ≡ faults.old ++ order_faults (option_copied columns.entry) sorts.now) }
{
    for sort in sorts {
        check_column(columns, &sort.column, faults)?;
    }
    Ok(())
}

fn check_offset(
    scope: &Scope<'_, Entry>,
    offset: &Option<Expr>,
    faults: &mut List<TokenFault>,
) -> Result<(), NoMemory>
    ensures { OnOk result (faults.new ≡ faults.old ++ offset_faults scope.now offset.now) }
{
    if let Some(e) = offset {
        check_placed(ValueType::Int, scope, e, faults)?;
    }
    Ok(())
}

/// Reports a SUM's column that doesn't exist or isn't INT.
fn check_sum(
    columns: Option<&Index<'_, ColDef>>,
    name: &Name,
    faults: &mut List<TokenFault>,
) -> Result<(), NoMemory>
    ensures { OnOk result (faults.new ≡ faults.old ++ agg_faults (option_copied columns.entry) (Sum name.now)) }
{
    let kind = check_column(columns, name, faults)?;
    check_fit(faults, ValueType::Int, name.token, kind)
}

/// Reports an aggregate's column that doesn't exist, and a SUM over texts. Returns the aggregate's type.
fn check_agg(
    columns: Option<&Index<'_, ColDef>>,
    agg: &Agg,
    faults: &mut List<TokenFault>,
) -> Result<ValueType, NoMemory>
    ensures kind { IfOk result (λ t. t ≡ agg_type (option_copied columns.entry) agg.now) }
    ensures faults { OnOk result (faults.new ≡ faults.old ++ agg_faults (option_copied columns.entry) agg.now) }
{
    match agg {
        Agg::CountAll => Ok(ValueType::Int),
        Agg::CountDistinct(name) => {
            check_column(columns, name, faults)?;
            Ok(ValueType::Int)
        }
        Agg::Sum(name) => {
            check_sum(columns, name, faults)?;
            Ok(ValueType::Int)
        }
        Agg::Min(name) | Agg::Max(name) => check_column(columns, name, faults),
    }
}

/// Checks a value for each column.
pub(crate) fn check_values(
    scope: &Scope<'_, Entry>,
    columns: &[ColDef],
    values: &[Expr],
    faults: &mut List<TokenFault>,
) -> Result<(), NoMemory>
    ensures { OnOk result (faults.new ≡ faults.old ++ values_faults scope.now columns.now values.now) }
{
    for i in 0..values.len() {
        let place = match columns.get(i) {
            Some(column) => column_kind(column.kind),
            None => ValueType::Unknown,
        };
        check_placed(place, scope, &values[i], faults)?;
    }
    Ok(())
}

/// Whether a column is one of a table's key columns.
fn is_in_key(table: Option<&TableNames<'_>>, name: &Name) -> bool
    ensures { result ≡ is_key (option_copied table.entry) name.now.text }
{
    match table {
        None => false,
        Some(table) => has_name(table.definition().key.as_slice(), &name.text),
    }
}

/// Checks an item of SET.
fn check_item(
    scope: &Scope<'_, Entry>,
    table: Option<&TableNames<'_>>,
    item: &SetItem,
    faults: &mut List<TokenFault>,
) -> Result<(), NoMemory>
    ensures { OnOk result (faults.new ≡ faults.old ++ item_faults scope.now (option_copied table.entry) item.now) }
{
    let columns = columns_in(table);
    let place = check_column(columns, &item.column, faults)?;
    add_if(
        faults,
        is_in_key(table, &item.column),
        TokenFault::key_set(item.column.token),
    )?;
    check_operand(place, scope, columns, &item.right, faults)?;
    Ok(())
}

fn check_items(
    scope: &Scope<'_, Entry>,
    table: Option<&TableNames<'_>>,
    items: &[SetItem],
    faults: &mut List<TokenFault>,
) -> Result<(), NoMemory>
    ensures { OnOk result (faults.new ≡ faults.old ++ flat_map (item_faults scope.now (option_copied table.entry)) items.now) }
{
    for item in items {
        check_item(scope, table, item, faults)?;
    }
    Ok(())
}

// Loops

/// Reports a loop's name that is already in scope.
pub(crate) fn check_turn_name(
    scope: &Scope<'_, Entry>,
    name: &Name,
    faults: &mut List<TokenFault>,
) -> Result<(), NoMemory>
    ensures { OnOk result (faults.new ≡ faults.old ++ turn_name scope.now name.now) }
{
    add_if(
        faults,
        scope.has(&name.text),
        TokenFault::double(name.token),
    )
}

/// Reports a loop's parameter that doesn't exist or isn't a ROWS parameter.
pub(crate) fn check_rows(
    found: Option<&Entry>,
    token: u32,
    faults: &mut List<TokenFault>,
) -> Result<(), NoMemory>
    ensures { OnOk result (faults.new ≡ faults.old ++ rows_faults token (option_copied found.entry)) }
{
    match found {
        None => faults.push(TokenFault::unknown(token)),
        Some(entry) => match &entry.binding {
            Binding::Rows(_) => Ok(()),
            _ => faults.push(TokenFault::wrong(token)),
        },
    }
}

/// Reports each selected column that doesn't exist. Returns the columns as the fields of a loop's row.
fn selected_fields(
    alloc: Global,
    columns: Option<&Index<'_, ColDef>>,
    names: &[Name],
    faults: &mut List<TokenFault>,
) -> Result<List<Field>, NoMemory>
    ensures fields { IfOk result (λ all. all ≡ map (selected_field (option_copied columns.entry)) names.now) }
    ensures faults { OnOk result (faults.new ≡ faults.old ++ flat_map (column_faults (option_copied columns.entry)) names.now) }
{
    let mut fields = List::new(alloc);
    for name in names {
        let kind = check_column(columns, name, faults)?;
        let name = name.text.copy(alloc)?;
        fields.push(Field { name, kind })?;
    }
    Ok(fields)
}

/// Returns the row of a loop with these fields.
pub(crate) fn turn_with(alloc: Global, turn: &Name, fields: List<Field>) -> Result<Entry, NoMemory>
    ensures { IfOk result (λ e. e ≡ turn_with turn.now fields) }
{
    Ok(Entry {
        name: turn.text.copy(alloc)?,
        binding: Binding::Turn(fields),
    })
}

/// Returns the columns of a ROWS parameter; empty for anything else.
pub(crate) fn fields_of(alloc: Global, found: Option<&Entry>) -> Result<List<Field>, NoMemory>
    ensures { IfOk result (λ all. all ≡ fields_of (option_copied found.entry)) }
{
    match found {
        None => Ok(List::new(alloc)),
        Some(entry) => match &entry.binding {
            Binding::Rows(fields) => fields.copy(alloc),
            _ => Ok(List::new(alloc)),
        },
    }
}

// Statements

pub(crate) fn check_assign(
    scope: &Scope<'_, Entry>,
    to: &Name,
    right: &Expr,
    faults: &mut List<TokenFault>,
) -> Result<(), NoMemory>
    ensures { OnOk result (faults.new ≡ faults.old ++ assign to.now right.now scope.now) }
{
    let kind = check_target(scope, to, faults)?;
    check_placed(kind, scope, right, faults)
}

pub(crate) fn check_select(
    alloc: Global,
    scope: &Scope<'_, Entry>,
    table: Option<&TableNames<'_>>,
    selection: &Selection<'_>,
    to: &[Name],
    offset: &Option<Expr>,
    faults: &mut List<TokenFault>,
) -> Result<(), NoMemory>
    ensures { OnOk result (faults.new ≡ faults.old ++ select (option_copied table.entry) selection.now.columns.now to.now selection.now.table.now selection.now.conds.now selection.now.sorts.now offset.now scope.now) }
{
    let own = columns_in(table);
    let name = selection.table;
    check_table(table, name.token, faults)?;
    let kinds = check_columns(alloc, own, selection.columns, faults)?;
    let token = token_of_names(to, name.token);
    add_if(
        faults,
        selection.columns.len() != to.len(),
        TokenFault::wrong(token),
    )?;
    check_targets(scope, kinds.as_slice(), to, faults)?;
    check_where(scope, own, selection.conds, faults)?;
    check_order(own, selection.sorts, faults)?;
    check_offset(scope, offset, faults)
}

/// Checks the head of a loop over a SELECT: its table, columns, WHERE and ORDER BY. Returns the fields of its row.
pub(crate) fn check_selected(
    alloc: Global,
    scope: &Scope<'_, Entry>,
    table: Option<&TableNames<'_>>,
    selection: &Selection<'_>,
    faults: &mut List<TokenFault>,
) -> Result<List<Field>, NoMemory>
    ensures fields { IfOk result (λ all. all ≡ map (selected_field (columns_of (option_copied table.entry))) selection.now.columns.now) }
    ensures faults { OnOk result (let own = columns_of (option_copied table.entry) in faults.new ≡ faults.old ++ missing_table selection.now.table.now.token (option_copied table.entry) ++ flat_map (column_faults own) selection.now.columns.now ++ where_faults scope.now own selection.now.conds.now ++ order_faults own selection.now.sorts.now) }
{
    let own = columns_in(table);
    check_table(table, selection.table.token, faults)?;
    let fields = selected_fields(alloc, own, selection.columns, faults)?;
    check_where(scope, own, selection.conds, faults)?;
    check_order(own, selection.sorts, faults)?;
    Ok(fields)
}

pub(crate) fn check_total(
    scope: &Scope<'_, Entry>,
    table: Option<&TableNames<'_>>,
    agg: &Agg,
    to: &Name,
    name: &Name,
    conds: &[Cond],
    faults: &mut List<TokenFault>,
) -> Result<(), NoMemory>
    ensures { OnOk result (faults.new ≡ faults.old ++ total (option_copied table.entry) agg.now to.now name.now conds.now scope.now) }
{
    let own = columns_in(table);
    check_table(table, name.token, faults)?;
    let kind = check_agg(own, agg, faults)?;
    check_taking(scope, kind, to, faults)?;
    check_where(scope, own, conds, faults)
}

pub(crate) fn check_insert(
    scope: &Scope<'_, Entry>,
    table: Option<&TableNames<'_>>,
    name: &Name,
    values: &[Expr],
    faults: &mut List<TokenFault>,
) -> Result<(), NoMemory>
    ensures { OnOk result (faults.new ≡ faults.old ++ insert (option_copied table.entry) name.now values.now scope.now) }
{
    match table {
        None => {
            faults.push(TokenFault::unknown(name.token))?;
            check_values(scope, &[], values, faults)
        }
        Some(table) => {
            let columns = table.definition().columns.as_slice();
            let token = token_of_values(values, name.token);
            add_if(
                faults,
                values.len() != columns.len(),
                TokenFault::wrong(token),
            )?;
            check_values(scope, columns, values, faults)
        }
    }
}

pub(crate) fn check_update(
    alloc: Global,
    scope: &Scope<'_, Entry>,
    table: Option<&TableNames<'_>>,
    name: &Name,
    items: &[SetItem],
    conds: &[Cond],
    faults: &mut List<TokenFault>,
) -> Result<(), NoMemory>
    ensures { OnOk result (faults.new ≡ faults.old ++ update (option_copied table.entry) name.now items.now conds.now scope.now) }
{
    check_table(table, name.token, faults)?;
    check_doubles(&mut Scope::new(alloc), items, faults)?;
    check_items(scope, table, items, faults)?;
    check_where(scope, columns_in(table), conds, faults)
}

pub(crate) fn check_delete(
    scope: &Scope<'_, Entry>,
    table: Option<&TableNames<'_>>,
    name: &Name,
    conds: &[Cond],
    faults: &mut List<TokenFault>,
) -> Result<(), NoMemory>
    ensures { OnOk result (faults.new ≡ faults.old ++ delete (option_copied table.entry) name.now conds.now scope.now) }
{
    check_table(table, name.token, faults)?;
    check_where(scope, columns_in(table), conds, faults)
}
