//! Faults of tables, procedures, copies and calls.

ghost use Rattle.std.specs.Prelude.{◌≡◌, ◌∷◌, ◌++◌, [], map, codes, length, OnOk, IfOk};
ghost use Rattle.std.specs.List.{flat_map};
ghost use Rattle.std.specs.Option.{option_copied};
ghost use Rattle.mv_names.specs.Scope.{parameter, variable, binding_of, column_type, declared_field, scope_of};
ghost use Rattle.mv_names.specs.Faults as meant;
ghost use Rattle.mv_names.specs.Faults.{fits, begins, arg_token, arguments_token};

use crate::bodies::check_statements;
use crate::exprs::{column_kind, do_clash, value_kind};
use crate::fault::{TokenFault, add_if};
use crate::index::Index;
use crate::labels::{Taken, check_doubles};
use crate::nested::Scope;
use crate::scope::{Binding, Entry, FOUND, Field, ValueType};
use crate::statements::check_table;
use crate::tables::TableNames;
use crate::writes::check_writes;
use mv_ast::tree::{
    Arg, CallDef, ColDef, CopyDef, Lit, LitRow, Name, Param, ParamKind, ProcDef, VarDef,
};
use mv_values::copied::Copied;
use mv_values::list::List;
use mv_values::memory::NoMemory;
use mv_values::schema::ColType;
use mv_values::txt::Txt;
use mv_values::value::Value;
use std::alloc::Global;

// Literals

/// Whether a value has the type, and a text is no longer than the type allows.
fn does_fit(kind: ColType, value: &Value) -> bool
    ensures { result ≡ fits kind value.now }
{
    match (kind, value) {
        (ColType::Int, Value::Int(_)) => true,
        (ColType::Text(most), Value::Text(text)) => text.len() <= most as usize,
        _ => false,
    }
}

fn check_literal(
    kind: ColType,
    literal: &Lit,
    faults: &mut List<TokenFault>,
) -> Result<(), NoMemory>
    ensures { OnOk result (faults.new ≡ faults.old ++ meant.literal kind literal.now) }
{
    add_if(
        faults,
        !does_fit(kind, &literal.value),
        TokenFault::wrong(literal.token),
    )
}

/// Checks a literal for each column.
fn check_literals(
    columns: &[ColDef],
    literals: &[Lit],
    faults: &mut List<TokenFault>,
) -> Result<(), NoMemory>
    requires { length literals.now ≡ length columns.now }
    ensures { OnOk result (faults.new ≡ faults.old ++ meant.literals columns.now literals.now) }
{
    for i in 0..literals.len() {
        check_literal(columns[i].kind, &literals[i], faults)?;
    }
    Ok(())
}

fn check_row(
    columns: &[ColDef],
    row: &LitRow,
    faults: &mut List<TokenFault>,
) -> Result<(), NoMemory>
    ensures { OnOk result (faults.new ≡ faults.old ++ meant.row columns.now row.now) }
{
    let values = row.values.as_slice();
    if values.len() == columns.len() {
        check_literals(columns, values, faults)
    } else {
        faults.push(TokenFault::wrong(row.token))
    }
}

fn check_rows(
    columns: &[ColDef],
    rows: &[LitRow],
    faults: &mut List<TokenFault>,
) -> Result<(), NoMemory>
    ensures { OnOk result (faults.new ≡ faults.old ++ meant.rows columns.now rows.now) }
{
    for row in rows {
        check_row(columns, row, faults)?;
    }
    Ok(())
}

// Tables

fn check_column_names(
    alloc: Global,
    columns: &[ColDef],
    faults: &mut List<TokenFault>,
) -> Result<(), NoMemory>
    ensures { OnOk result (faults.new ≡ faults.old ++ meant.column_doubles columns.now) }
{
    check_doubles(&mut Scope::new(alloc), columns, faults)
}

/// Reports a key column that doesn't exist.
fn check_key_column(
    columns: &Index<'_, ColDef>,
    name: &Name,
    faults: &mut List<TokenFault>,
) -> Result<(), NoMemory>
    ensures { OnOk result (faults.new ≡ faults.old ++ meant.missing_key columns.now name.now) }
{
    let is_there = columns.has(&name.text);
    add_if(faults, !is_there, TokenFault::unknown(name.token))
}

fn check_key(
    columns: &Index<'_, ColDef>,
    key: &[Name],
    faults: &mut List<TokenFault>,
) -> Result<(), NoMemory>
    ensures { OnOk result (faults.new ≡ faults.old ++ flat_map (meant.missing_key columns.now) key.now) }
{
    for name in key {
        check_key_column(columns, name, faults)?;
    }
    Ok(())
}

fn check_key_names(
    alloc: Global,
    key: &[Name],
    faults: &mut List<TokenFault>,
) -> Result<(), NoMemory>
    ensures { OnOk result (faults.new ≡ faults.old ++ meant.key_doubles key.now) }
{
    let mut taken = Scope::new(alloc);
    check_doubles(&mut taken, key, faults)?;
    Ok(())
}

/// Returns the type of a column, or `Unknown` if it doesn't exist.
fn type_of_key(columns: &Index<'_, ColDef>, name: &Name) -> ValueType
    ensures { result ≡ column_type columns.now name.now.text }
{
    match columns.find(&name.text) {
        None => ValueType::Unknown,
        Some(column) => column_kind(column.kind),
    }
}

/// Whether a value of this type can be the key of a table: the key is one column, and it isn't of the other type.
fn can_be_key(kind: ColType, table: &TableNames<'_>) -> bool
    ensures { result ≡ meant.can_be_key kind table.now.columns table.now.key }
{
    match table.definition().key.as_slice() {
        [key] => !do_clash(column_kind(kind), type_of_key(table.columns(), key)),
        _ => false,
    }
}

/// Reports a parent table that doesn't exist, or whose key no value of this type can be.
fn check_parent(
    kind: ColType,
    name: &Name,
    table: Option<&TableNames<'_>>,
    faults: &mut List<TokenFault>,
) -> Result<(), NoMemory>
    ensures { OnOk result (faults.new ≡ faults.old ++ meant.parent kind name.now (option_copied table.entry)) }
{
    match table {
        None => faults.push(TokenFault::unknown(name.token)),
        Some(table) => add_if(
            faults,
            !can_be_key(kind, table),
            TokenFault::wrong(name.token),
        ),
    }
}

/// Checks the REFERENCES of a column, if it has it.
fn check_reference(
    tables: &Index<'_, TableNames<'_>>,
    column: &ColDef,
    faults: &mut List<TokenFault>,
) -> Result<(), NoMemory>
    ensures { OnOk result (faults.new ≡ faults.old ++ meant.column_reference tables.now column.now) }
{
    match &column.refers {
        None => Ok(()),
        Some(name) => check_parent(column.kind, name, tables.find(&name.text), faults),
    }
}

fn check_references(
    tables: &Index<'_, TableNames<'_>>,
    columns: &[ColDef],
    faults: &mut List<TokenFault>,
) -> Result<(), NoMemory>
    ensures { OnOk result (faults.new ≡ faults.old ++ flat_map (meant.column_reference tables.now) columns.now) }
{
    for column in columns {
        check_reference(tables, column, faults)?;
    }
    Ok(())
}

pub(crate) fn check_table_def(
    alloc: Global,
    tables: &Index<'_, TableNames<'_>>,
    table: &TableNames<'_>,
    faults: &mut List<TokenFault>,
) -> Result<(), NoMemory>
    ensures { OnOk result (faults.new ≡ faults.old ++ meant.table tables.now table.now) }
{
    let definition = table.definition();
    let columns = definition.columns.as_slice();
    check_column_names(alloc, columns, faults)?;
    check_references(tables, columns, faults)?;
    check_key(table.columns(), definition.key.as_slice(), faults)?;
    check_key_names(alloc, definition.key.as_slice(), faults)?;
    check_rows(columns, definition.rows.as_slice(), faults)
}

// Procedures

fn check_param(
    alloc: Global,
    kind: &ParamKind,
    faults: &mut List<TokenFault>,
) -> Result<(), NoMemory>
    ensures { OnOk result (faults.new ≡ faults.old ++ meant.param_columns kind.now) }
{
    match kind {
        ParamKind::One(_) => Ok(()),
        ParamKind::Many(columns) => check_column_names(alloc, columns.as_slice(), faults),
    }
}

fn check_params(
    alloc: Global,
    params: &[Param],
    faults: &mut List<TokenFault>,
) -> Result<(), NoMemory>
    ensures { OnOk result (faults.new ≡ faults.old ++ flat_map (λ q. meant.param_columns q.kind) params.now) }
{
    for param in params {
        check_param(alloc, &param.kind, faults)?;
    }
    Ok(())
}

/// The greatest length of a variable's text, in bytes.
const LONGEST: usize = 4000;

/// Whether a variable may have this initial value.
fn can_begin(value: &Value) -> bool
    ensures { result ≡ begins value.now }
{
    match value {
        Value::Int(_) => true,
        Value::Text(text) => text.len() <= LONGEST,
    }
}

fn check_initials(vars: &[VarDef], faults: &mut List<TokenFault>) -> Result<(), NoMemory>
    ensures { OnOk result (faults.new ≡ faults.old ++ flat_map meant.initial vars.now) }
{
    for var in vars {
        add_if(
            faults,
            !can_begin(&var.initial.value),
            TokenFault::wrong(var.initial.token),
        )?;
    }
    Ok(())
}

fn found_name(alloc: Global) -> Result<Txt, NoMemory>
    ensures { IfOk result (λ t. t ≡ codes "found") }
{
    Txt::of(alloc, FOUND)
}

/// Reports parameters and variables whose name is taken. Both share one namespace.
fn check_names<'a>(
    taken: &mut Scope<'a, Taken<'a>>,
    procedure: &'a ProcDef,
    faults: &mut List<TokenFault>,
) -> Result<(), NoMemory>
    ensures { OnOk result (faults.new ≡ faults.old ++ meant.name_doubles taken.old procedure.now) }
{
    check_doubles(taken, procedure.params.as_slice(), faults)?;
    check_doubles(taken, procedure.vars.as_slice(), faults)?;
    Ok(())
}

/// Returns the names that are taken if only this one is.
fn only_name(alloc: Global, name: &Txt) -> Result<Scope<'_, Taken<'_>>, NoMemory>
    ensures { IfOk result (λ all. all ≡ name.now ∷ []) }
{
    let mut taken = Scope::new(alloc);
    taken.push(name.as_slice(), Taken::of(name))?;
    Ok(taken)
}

fn fields_of_columns(alloc: Global, columns: &[ColDef]) -> Result<List<Field>, NoMemory>
    ensures { IfOk result (λ all. all ≡ map declared_field columns.now) }
{
    let mut fields = List::new(alloc);
    for column in columns {
        fields.push(Field {
            name: column.name.text.copy(alloc)?,
            kind: column_kind(column.kind),
        })?;
    }
    Ok(fields)
}

fn binding_of_param(alloc: Global, kind: &ParamKind) -> Result<Binding, NoMemory>
    ensures { IfOk result (λ m. m ≡ binding_of kind.now) }
{
    match kind {
        ParamKind::One(kind) => Ok(Binding::Fixed(column_kind(*kind))),
        ParamKind::Many(columns) => {
            Ok(Binding::Rows(fields_of_columns(alloc, columns.as_slice())?))
        }
    }
}

fn add_params<'a>(
    alloc: Global,
    scope: &mut Scope<'a, Entry>,
    params: &'a [Param],
) -> Result<(), NoMemory>
    ensures { OnOk result (scope.new ≡ scope.old ++ map parameter params.now) }
{
    for param in params {
        let name = &param.name.text;
        let entry = Entry {
            name: name.copy(alloc)?,
            binding: binding_of_param(alloc, &param.kind)?,
        };
        scope.push(name.as_slice(), entry)?;
    }
    Ok(())
}

fn add_vars<'a>(
    alloc: Global,
    scope: &mut Scope<'a, Entry>,
    vars: &'a [VarDef],
) -> Result<(), NoMemory>
    ensures { OnOk result (scope.new ≡ scope.old ++ map variable vars.now) }
{
    for var in vars {
        let name = &var.name.text;
        let entry = Entry {
            name: name.copy(alloc)?,
            binding: Binding::Variable(value_kind(&var.initial.value)),
        };
        scope.push(name.as_slice(), entry)?;
    }
    Ok(())
}

/// Returns the names in scope in a procedure outside its loops.
fn names_of_procedure<'a>(
    alloc: Global,
    procedure: &'a ProcDef,
) -> Result<Scope<'a, Entry>, NoMemory>
    ensures { IfOk result (λ all. all ≡ scope_of procedure.now) }
{
    let mut scope = Scope::new(alloc);
    let found = Entry {
        name: found_name(alloc)?,
        binding: Binding::Fixed(ValueType::Int),
    };
    scope.push(FOUND, found)?;
    add_params(alloc, &mut scope, procedure.params.as_slice())?;
    add_vars(alloc, &mut scope, procedure.vars.as_slice())?;
    Ok(scope)
}

/// Checks the names and initial values that a procedure declares.
fn check_declarations(
    alloc: Global,
    procedure: &ProcDef,
    faults: &mut List<TokenFault>,
) -> Result<(), NoMemory>
    ensures { OnOk result (faults.new ≡ faults.old ++ meant.declarations procedure.now) }
{
    let found = found_name(alloc)?;
    check_names(&mut only_name(alloc, &found)?, procedure, faults)?;
    check_params(alloc, procedure.params.as_slice(), faults)?;
    check_initials(procedure.vars.as_slice(), faults)?;
    Ok(())
}

pub(crate) fn check_procedure(
    alloc: Global,
    tables: &Index<'_, TableNames<'_>>,
    procedure: &ProcDef,
    faults: &mut List<TokenFault>,
) -> Result<(), NoMemory>
    ensures { OnOk result (faults.new ≡ faults.old ++ meant.procedure tables.now procedure.now) }
{
    check_declarations(alloc, procedure, faults)?;
    let mut scope = names_of_procedure(alloc, procedure)?;
    check_statements(alloc, tables, procedure.body.as_slice(), &mut scope, faults)?;
    check_writes(procedure, faults)
}

// Copies and calls

pub(crate) fn check_copy(
    tables: &Index<'_, TableNames<'_>>,
    copy: &CopyDef,
    faults: &mut List<TokenFault>,
) -> Result<(), NoMemory>
    ensures { OnOk result (faults.new ≡ faults.old ++ meant.copy tables.now copy.now) }
{
    check_table(tables.find(&copy.table.text), copy.table.token, faults)
}

fn check_argument(
    kind: &ParamKind,
    arg: &Arg,
    faults: &mut List<TokenFault>,
) -> Result<(), NoMemory>
    ensures { OnOk result (faults.new ≡ faults.old ++ meant.argument kind.now arg.now) }
{
    match kind {
        ParamKind::One(kind) => match arg {
            Arg::One(literal) => check_literal(*kind, literal, faults),
            Arg::Many(rows) => faults.push(TokenFault::wrong(rows.token)),
        },
        ParamKind::Many(columns) => match arg {
            Arg::One(literal) => faults.push(TokenFault::wrong(literal.token)),
            Arg::Many(rows) => check_rows(columns.as_slice(), rows.rows.as_slice(), faults),
        },
    }
}

/// Checks an argument for each parameter.
fn check_arguments(
    params: &[Param],
    args: &[Arg],
    faults: &mut List<TokenFault>,
) -> Result<(), NoMemory>
    requires { length args.now ≡ length params.now }
    ensures { OnOk result (faults.new ≡ faults.old ++ meant.arguments params.now args.now) }
{
    for i in 0..args.len() {
        check_argument(&params[i].kind, &args[i], faults)?;
    }
    Ok(())
}

fn token_of_arg(arg: &Arg) -> u32
    ensures { result ≡ arg_token arg.now }
{
    match arg {
        Arg::One(literal) => literal.token,
        Arg::Many(rows) => rows.token,
    }
}

/// Returns the first token of the arguments, or that of the procedure's name if there are none.
fn token_of_args(args: &[Arg], name: &Name) -> u32
    ensures { result ≡ arguments_token args.now name.now }
{
    match args {
        [arg, ..] => token_of_arg(arg),
        [] => name.token,
    }
}

pub(crate) fn check_call(
    procedures: &Index<'_, ProcDef>,
    call: &CallDef,
    faults: &mut List<TokenFault>,
) -> Result<(), NoMemory>
    ensures { OnOk result (faults.new ≡ faults.old ++ meant.call procedures.now call.now) }
{
    match procedures.find(&call.name.text) {
        None => faults.push(TokenFault::unknown(call.name.token)),
        Some(procedure) => {
            let args = call.arguments.as_slice();
            let params = procedure.params.as_slice();
            if args.len() == params.len() {
                check_arguments(params, args, faults)
            } else {
                faults.push(TokenFault::wrong(token_of_args(args, &call.name)))
            }
        }
    }
}
